//! The first pair of steps that interferes.

ghost use Rattle.std.specs.Prelude.{◌≡◌, ◌<◌, ◌+◌, ◌↔◌, All, IfOk, IfSome, IsTrue, List, drop, length, MatchOption};
ghost use Rattle.std.specs.List.{AllByRecursion};
ghost use Rattle.pddl_state.specs.AtomSets.{no_atoms};
ghost use Rattle.pddl_happenings.specs.Accepted.{NoClash, IsReady};
ghost use Rattle.pddl_happenings.specs.Failures.{FirstAt, IsFirstClash};
ghost use Rattle.pddl_judge.specs.Touches.{touch_in, touch_of, touches_of, join_of, Owned, overlap, Apart, AllPairwise, FirstRowAt};
ghost use Rattle.pddl_judge.specs.Verdicts.{IsLeast};

use crate::course::Course;
use crate::touch::{Touched, are_apart, join, least_clash, touch};
use pddl_state::{Atom, AtomStore};
use std::alloc::{AllocError, Allocator};

/// Two steps that interfere, and the least atom of their clash.
#[derive(Drop)]
pub(crate) struct Clash<A: Allocator> {
    pub first: u32,
    pub second: u32,
    pub atom: Atom<A>,
}

/// Whether a step is apart from the steps behind it; what it touches is added to what those touch, and let go.
fn join_step<A: Allocator, S: AtomStore<A>, P: Course<A, S>>(
    course: &P,
    step: u32,
    store: &mut S,
    state: &S::Set,
    behind: &mut Touched<S::Set>,
) -> Result<bool, AllocError>
    requires step { step < P.count_of course.now }
    requires own { S.owns store.old state.now }
    requires behind_own { Owned (S.owns store.old) behind.old }
    ensures own { IfOk result (λ _. Owned (S.owns store.new) behind.new) }
    ensures apart { IfOk result (λ apart. IsTrue apart ↔ Apart (touch_of (P.steps_of course.now step) (S.content store.old state.now)) (touch_in (S.content store.old) behind.old)) }
    ensures content { IfOk result (λ _. touch_in (S.content store.new) behind.new ≡ join_of (touch_in (S.content store.old) behind.old) (touch_of (P.steps_of course.now step) (S.content store.old state.now))) }
    ensures others_own { (t : S.Set) → S.owns store.old t → S.owns store.new t }
    ensures others { (t : S.Set) → S.owns store.old t → S.content store.new t ≡ S.content store.old t }
{
    let one = touch(course, step, store, state)?;
    let apart = are_apart(store, &one, behind);
    join(store, behind, &one).and(Ok(apart))
}

/// The place of the first step of a happening that interferes with one behind it, by a test of each step, from the last to the
/// first, against all that the steps behind it touch; `behind` is what all touch in the end.
pub(crate) fn first_row<A: Allocator, S: AtomStore<A>, P: Course<A, S>>(
    course: &P,
    group: &[u32],
    store: &mut S,
    state: &S::Set,
    behind: &mut Touched<S::Set>,
) -> Result<Option<usize>, AllocError>
    requires steps { All (λ k. k < P.count_of course.now) group.now }
    requires own { S.owns store.old state.now }
    requires behind_own { Owned (S.owns store.old) behind.old }
    requires behind { touch_in (S.content store.old) behind.old ≡ record { reads = no_atoms; adds = no_atoms; dels = no_atoms } }
    ensures own { IfOk result (λ _. Owned (S.owns store.new) behind.new) }
    ensures touches { IfOk result (λ _. touch_in (S.content store.new) behind.new ≡ touches_of (P.steps_of course.now) (S.content store.old state.now) group.now) }
    ensures within { IfOk result (λ row. IfSome row (λ i. i < length group.now)) }
    ensures first { IfOk result (λ row. MatchOption row (AllPairwise (NoClash (P.steps_of course.now) (S.content store.old state.now)) group.now) (λ i. FirstRowAt (NoClash (P.steps_of course.now) (S.content store.old state.now)) group.now i)) }
    ensures others_own { (t : S.Set) → S.owns store.old t → S.owns store.new t }
    ensures others { (t : S.Set) → S.owns store.old t → S.content store.new t ≡ S.content store.old t }
{
    let mut row = None;
    let mut i = group.len();
    while i > 0 {
        i -= 1;
        let apart = join_step(course, group[i], store, state, behind)?;
        if !apart {
            row = Some(i);
        }
    }
    Ok(row)
}

/// The least atom of the clash of a step with another one; None where they don't interfere.
fn clash_with<A: Allocator, S: AtomStore<A>, P: Course<A, S>>(
    course: &P,
    one: &Touched<S::Set>,
    step: u32,
    store: &mut S,
    state: &S::Set,
) -> Result<Option<Atom<A>>, AllocError>
    requires step { step < P.count_of course.now }
    requires own { S.owns store.old state.now }
    requires one_own { Owned (S.owns store.old) one.now }
    ensures clash { IfOk result (λ found. MatchOption found (Apart (touch_in (S.content store.old) one.now) (touch_of (P.steps_of course.now step) (S.content store.old state.now))) (λ a. IsLeast a (overlap (touch_in (S.content store.old) one.now) (touch_of (P.steps_of course.now step) (S.content store.old state.now))))) }
    ensures others_own { (t : S.Set) → S.owns store.old t → S.owns store.new t }
    ensures others { (t : S.Set) → S.owns store.old t → S.content store.new t ≡ S.content store.old t }
{
    let other = touch(course, step, store, state)?;
    if are_apart(store, one, &other) {
        Ok(None)
    } else {
        least_clash(store, one, &other)
    }
}

/// The place of the first of some steps that interferes with a step, and the least atom of their clash.
fn first_in_row<A: Allocator, S: AtomStore<A>, P: Course<A, S>>(
    course: &P,
    one: &Touched<S::Set>,
    rest: &[u32],
    store: &mut S,
    state: &S::Set,
) -> Result<Option<(usize, Atom<A>)>, AllocError>
    requires steps { All (λ k. k < P.count_of course.now) rest.now }
    requires own { S.owns store.old state.now }
    requires one_own { Owned (S.owns store.old) one.now }
    ensures within { IfOk result (λ found. IfSome found (λ f. f.0 < length rest.now)) }
    ensures first { IfOk result (λ found. MatchOption found
        (AllByRecursion (λ k. Apart (touch_in (S.content store.old) one.now) (touch_of (P.steps_of course.now k) (S.content store.old state.now))) rest.now)
        (λ f. FirstAt (λ k. Apart (touch_in (S.content store.old) one.now) (touch_of (P.steps_of course.now k) (S.content store.old state.now))) (λ k. IsLeast f.1 (overlap (touch_in (S.content store.old) one.now) (touch_of (P.steps_of course.now k) (S.content store.old state.now)))) rest.now f.0)) }
    ensures others_own { (t : S.Set) → S.owns store.old t → S.owns store.new t }
    ensures others { (t : S.Set) → S.owns store.old t → S.content store.new t ≡ S.content store.old t }
{
    for (j, step) in rest.iter().enumerate() {
        match clash_with(course, one, *step, store, state)? {
            Some(atom) => return Ok(Some((j, atom))),
            None => {}
        }
    }
    Ok(None)
}

/// The steps behind a place.
fn following(group: &[u32], place: usize) -> &[u32]
    requires { place < length group.now }
    ensures { result.now ≡ drop (place + 1) group.now }
{
    &group[place + 1..]
}

/// The first pair that interferes, where the place of its first step is known.
pub(crate) fn clash_in_row<A: Allocator, S: AtomStore<A>, P: Course<A, S>>(
    course: &P,
    group: &[u32],
    place: usize,
    store: &mut S,
    state: &S::Set,
) -> Result<Option<Clash<A>>, AllocError>
    requires steps { All (λ k. k < P.count_of course.now) group.now }
    requires own { S.owns store.old state.now }
    requires within { place < length group.now }
    requires row { FirstRowAt (NoClash (P.steps_of course.now) (S.content store.old state.now)) group.now place }
    requires ready { All (IsReady (P.steps_of course.now) (S.content store.old state.now)) group.now }
    ensures { IfOk result (λ found. MatchOption found ⊥ (λ c. IsFirstClash (P.steps_of course.now) (IsLeast c.atom) (S.content store.old state.now) group.now c.first c.second)) }
{
    let one = touch(course, group[place], store, state)?;
    let rest = following(group, place);
    match first_in_row(course, &one, rest, store, state)? {
        None => Ok(None),
        Some((j, atom)) => Ok(Some(Clash {
            first: group[place],
            second: rest[j],
            atom,
        })),
    }
}
