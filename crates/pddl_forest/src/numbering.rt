//! Numbers for the places of a forest: each place behind its parent, and what is below a place directly behind it. So each place has a span.
//! Places are peeled off in turn, each once no child of it is left, and numbered the other way round. What cannot be peeled off lies on ways that go round.

ghost use Rattle.std.specs.Prelude.{◌≡◌, ◌+◌, ◌^◌, ◌<◌, ◌*◌, ℕ, true, false, length, replicate, take, Ok, Err, IfOk, IfErr, cond, eqb, ltb, sum, slice_set};
ghost use Rattle.pddl_forest.specs.Forests.{number_at, parent_of};
ghost use Rattle.pddl_forest.specs.Spans.{AreSpans};
ghost use Rattle.pddl_forest.specs.Rounds.{HasRound, AreRounds};
ghost use Rattle.pddl_forest.specs.Inner.{AreParents, ArePeeling, IsOrder, AreUnder};

use crate::spans::Span;
use std::alloc::{AllocError, Allocator};

/// Peels off a place where no child of it is left, then its parent where none is left of that, and so on: puts it into the order, and what is under it behind
/// what is under its parent so far. Its first number is from the number of the parent on then, and its last from its own. Answers how many are peeled off by then.
fn peel_up(
    parents: &[usize],
    left: &mut [usize],
    order: &mut [usize],
    spans: &mut [Span],
    peeled: usize,
    place: usize,
) -> usize
    requires parents { AreParents parents.now }
    requires low { place < length parents.now }
    requires peeled { ArePeeling parents.now left.old order.old peeled spans.old place }
    ensures { ArePeeling parents.now left.new order.new result spans.new (place + 1) }
{
    let mut turn = peeled;
    let mut next = place;
    while left[next] == 0 && spans[next].first == 0 {
        let parent = parents[next];
        let first = spans[parent].last + 1;
        let last = spans[next].last;
        spans[parent].last = first + last;
        spans[next] = Span { first, last };
        left[parent] -= 1;
        order[turn] = next;
        turn += 1;
        next = parent;
    }
    turn
}

/// Whether children of some place are left, by how many are left in all, where place 0 is not its own parent; where it is, the number of its children is set to
/// 0 first.
fn has_round(parents: &[usize], left: &mut [usize], many: usize) -> bool
    requires parents { AreParents parents.now }
    requires long { length left.old ≡ length parents.now }
    requires many { many ≡ sum left.old }
    ensures left { left.new ≡ cond (eqb (number_at parents.now 0) 0) (slice_set left.old 0 0) left.old }
    ensures some { result ≡ ltb 0 (sum left.new) }
{
    if parents[0] == 0 {
        let own = left[0];
        left[0] = 0;
        own < many
    } else {
        0 < many
    }
}

/// Numbers places from 0 on from the end of such an order: each behind its parent's number by what was put before it.
fn number_from_top(parents: &[usize], order: &[usize], spans: &mut [Span])
    requires parents { AreParents parents.now }
    requires order { IsOrder parents.now order.now }
    requires under { AreUnder parents.now order.now spans.old }
    ensures { AreSpans parents.now spans.new }
{
    for turn in (0..order.len()).rev() {
        let place = order[turn];
        let span = spans[place];
        let first = span.first + spans[parents[place]].first;
        let last = span.last + first;
        spans[place] = Span { first, last };
    }
}

/// Numbers the places, whose spans are begun and of whose children none is counted yet, or finds that some way goes round: answers which.
fn number(parents: &[usize], scratch: &mut [usize], spans: &mut [Span]) -> bool
    requires parents { AreParents parents.now }
    requires none { scratch.old ≡ replicate (2 * length parents.now) 0 }
    requires under { spans.old ≡ replicate (length parents.now) (record { first = 0; last = 0 }) }
    ensures round { result ≡ true → HasRound parents.now × AreRounds parents.now (take (length parents.now) scratch.new) }
    ensures spans { result ≡ false → (HasRound parents.now → ⊥) × AreSpans parents.now spans.new }
{
    let (left, order) = scratch.split_at_mut(parents.len());
    for parent in parents {
        left[*parent] += 1;
    }
    let mut peeled = 0;
    for place in 0..parents.len() {
        peeled = peel_up(parents, left, order, spans, peeled, place);
    }
    let round = has_round(parents, left, parents.len() - peeled);
    if !round {
        number_from_top(parents, &order[..peeled], spans);
    }
    round
}

/// The first of two values, or the second where what was found is so; the other is let go. They are of any types, since a check does much for letting go a
/// value of which all is known.
fn choose<T: Drop, U: Drop>(first: T, second: U, found: bool) -> Result<T, U>
    ensures { result ≡ cond found (Err second) (Ok first) }
{
    (!found).then_some(first).ok_or(second)
}

/// The spans of the places whose parents stand at these places. Where a way from parent to parent goes round, other than from place 0 to itself, numbers
/// for the places: other than 0 for those that such a way leads back to, and 0 for the others.
///
/// Fails where memory for them is refused, or where no `u32` has their number.
pub fn forest_spans<'a, B: Allocator>(
    alloc: &'a B,
    parents: &[usize],
) -> Result<Result<Vec<Span, &'a B>, Vec<usize, &'a B>>, AllocError>
    requires some { 0 < length parents.now }
    requires within { (i : ℕ) → i < length parents.now → parent_of parents.now i < length parents.now }
    ensures short { IfOk result (λ found. IfOk found (λ spans. length spans.items < 2 ^ 32)) }
    ensures spans { IfOk result (λ found. IfOk found (λ spans. AreSpans parents.now spans.items)) }
    ensures none { IfOk result (λ found. IfOk found (λ spans. HasRound parents.now → ⊥)) }
    ensures round { IfOk result (λ found. IfErr found (λ numbers. HasRound parents.now × AreRounds parents.now numbers.items)) }
{
    if parents.len() > u32::MAX as usize {
        return Err(AllocError);
    }
    let mut spans = vec![in alloc; Span { first: 0, last: 0 }; parents.len()]?;
    let mut scratch = vec![in alloc; 0; 2 * parents.len()]?;
    let round = number(parents, &mut scratch, &mut spans);
    scratch.truncate(parents.len());
    Ok(choose(spans, scratch, round))
}
