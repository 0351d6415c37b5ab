//! Spans of numbers, and what they hold.

ghost use Rattle.std.specs.Prelude.{◌≡◌, ◌+◌, ◌<◌, ◌≤◌, ℕ, length, Contains};
ghost use Rattle.pddl_forest.specs.Spans.{holds, hold_all, AreApart, AreTops, at};
ghost use Rattle.pddl_forest.specs.declared.spans.Span.{Span};

use std::alloc::Allocator;

/// The numbers from a first to a last, in four bytes each.
#[derive(Clone, Copy)]
pub struct Span {
    pub first: u32,
    pub last: u32,
}

impl Span {
    /// Whether it holds a number.
    pub fn holds(self, number: u32) -> bool
        ensures { result ≡ holds self number }
    {
        self.first <= number && number <= self.last
    }
}

/// How many of some spans, each behind the one before, begin at or before a number. It is looked for from near a place on, in steps that double: the work
/// grows with the logarithm of how far behind that place it is.
fn begun_by(spans: &[Span], number: u32, near: usize) -> usize
    requires { AreApart spans.now }
    ensures within { result ≤ length spans.now }
    ensures before { (i : ℕ) → i < result → (at spans.now i).first ≤ number }
    ensures behind { (i : ℕ) → result ≤ i → i < length spans.now → number < (at spans.now i).first }
{
    let mut start = 0;
    let mut end = near.min(spans.len());
    let mut step = 1;
    while end < spans.len() && spans[end].first <= number {
        start = end + 1;
        end = start.saturating_add(step).min(spans.len());
        step = step.saturating_mul(2);
    }
    start + spans[start..end].partition_point(|span| span.first <= number)
}

/// How many of the four spans from a place on end before a number, which is found without a jump; 0 where fewer than four stand there.
fn passed(spans: &[Span], number: u32, place: usize) -> usize
    requires { place ≤ length spans.now }
    ensures { place + result ≤ length spans.now }
{
    match &spans[place..] {
        [a, b, c, d, ..] => {
            usize::from(a.last < number)
                + usize::from(b.last < number)
                + usize::from(c.last < number)
                + usize::from(d.last < number)
        }
        _ => 0,
    }
}

/// Whether spans, each behind the one before, hold the first number of each of others. What holds one is looked for first among the four from what held the
/// one before, then near these.
fn hold_each(outer: &[Span], inner: &[Span]) -> bool
    requires { AreApart outer.now }
    ensures { result ≡ hold_all outer.now inner.now }
{
    let mut place = 0;
    for span in inner {
        place += passed(outer, span.first, place);
        if place == outer.len() || !outer[place].holds(span.first) {
            let behind = begun_by(outer, span.first, place);
            if behind == 0 || !outer[behind - 1].holds(span.first) {
                return false;
            }
            place = behind - 1;
        }
    }
    true
}

/// The same of others that stand each behind the one before too, so that those which one span holds stand side by side.
fn hold_runs(outer: &[Span], inner: &[Span]) -> bool
    requires outer { AreApart outer.now }
    requires inner { AreApart inner.now }
    ensures { result ≡ hold_all outer.now inner.now }
{
    let mut next = 0;
    for span in outer {
        if next < inner.len() && inner[next].first < span.first {
            return false;
        }
        next = begun_by(inner, span.last, next);
    }
    next == inner.len()
}

/// Whether spans, each behind the one before, hold the first number of each of others. Where there are several of these, they stand so too. The work grows
/// with the fewer of both, and with the logarithm of the more.
pub fn hold_all(outer: &[Span], inner: &[Span]) -> bool
    requires outer { AreApart outer.now }
    requires inner { 1 < length inner.now → AreApart inner.now }
    ensures { result ≡ hold_all outer.now inner.now }
{
    if 1 < inner.len() && outer.len() < inner.len() {
        hold_runs(outer, inner)
    } else {
        hold_each(outer, inner)
    }
}

/// Keeps the tops of spans, of which two hold no number together unless one holds the first of the other, each behind the one before: those of which the first
/// number is in no other.
pub fn keep_tops<'a, B: Allocator>(spans: &mut Vec<Span, &'a B>)
    requires { (s : Span) → Contains spans.old.items s → s.first ≤ s.last }
    ensures { AreTops spans.old.items spans.new.items }
{
    spans.sort_unstable_by_key(|span| span.first);
    spans.dedup_by(|next, before| next.first <= before.last);
}
