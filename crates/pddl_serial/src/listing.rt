//! Whether a list of step numbers is a serialisation.

ghost use Rattle.std.specs.Prelude.{◌≡◌, ◌↔◌, ◌<◌, ℕ, Bool, true, false, cond, eqb, IfOk, IsTrue, length, slice_index, slice_index_or};
ghost use Rattle.std.specs.List.{list_any};
ghost use Rattle.pddl_happenings.specs.Happenings.{HaveEachOnce};
ghost use Rattle.pddl_happenings.specs.Serialisations.{place_of, IsSerialOrder};
ghost use Rattle.pddl_judge.specs.HappeningValues.{groups_of};
ghost use Rattle.pddl_serial.specs.Inner.Places.{IsOrderBy};

use pddl_judge::Happening;
use std::alloc::{AllocError, Allocator};

/// Puts a place at each of some steps.
fn mark(places: &mut [usize], steps: &[u32], place: usize)
    requires { (k : ℕ) → list_any (eqb k) steps.now ≡ true → k < length places.old }
    ensures { (k : ℕ) → slice_index places.new k ≡ cond (list_any (eqb k) steps.now) place (slice_index places.old k) }
{
    for step in steps {
        places[*step as usize] = place;
    }
}

/// Puts the place of its happening at each step.
fn place_all<H: Allocator>(places: &mut [usize], happenings: &[Happening<H>])
    requires { HaveEachOnce (length places.old) (groups_of happenings.now) }
    ensures { (k : ℕ) → k < length places.old → slice_index places.new k ≡ place_of (groups_of happenings.now) k }
{
    for (h, happening) in happenings.iter().enumerate() {
        mark(places, &happening.steps, h);
    }
}

/// The place of each step's happening.
pub(crate) fn places_of<'a, B: Allocator, H: Allocator>(
    alloc: &'a B,
    happenings: &[Happening<H>],
    steps: usize,
) -> Result<Vec<usize, &'a B>, AllocError>
    requires { HaveEachOnce steps (groups_of happenings.now) }
    ensures length { IfOk result (λ places. length places.items ≡ steps) }
    ensures places { IfOk result (λ places. (k : ℕ) → k < steps → slice_index places.items k ≡ place_of (groups_of happenings.now) k) }
{
    let mut places = vec![in alloc; 0; steps]?;
    place_all(&mut places, happenings);
    Ok(places)
}

/// Whether a list has each number that has a place, each once, and no number behind one of a later place.
fn passes(places: &[usize], seen: &mut [bool], order: &[u32]) -> bool
    requires length_is { length seen.old ≡ length places.now }
    requires none_seen { (k : ℕ) → slice_index_or seen.old k false ≡ false }
    ensures { IsTrue result ↔ IsOrderBy (λ k. slice_index places.now k) (length places.now) order.now }
{
    let mut last = 0;
    for step in order {
        let k = *step as usize;
        if k >= places.len() || seen[k] || places[k] < last {
            return false;
        }
        seen[k] = true;
        last = places[k];
    }
    for known in &*seen {
        if !*known {
            return false;
        }
    }
    true
}

/// The same, with the flags that it takes.
pub(crate) fn is_order_by<B: Allocator>(
    alloc: &B,
    places: &[usize],
    order: &[u32],
) -> Result<bool, AllocError>
    ensures { IfOk result (λ yes. IsTrue yes ↔ IsOrderBy (λ k. slice_index places.now k) (length places.now) order.now) }
{
    let mut seen = vec![in alloc; false; places.len()]?;
    Ok(passes(places, &mut seen, order))
}

/// Whether a list of step numbers is a serialisation of happenings that have the numbers below `steps`: all of them, each
/// once, those of an earlier happening before those of a later one. One pass over the happenings and one over the list.
/// Fails only for want of memory. Own.
pub fn is_serialisation<B: Allocator, H: Allocator>(
    alloc: &B,
    happenings: &[Happening<H>],
    steps: usize,
    order: &[u32],
) -> Result<bool, AllocError>
    requires { HaveEachOnce steps (groups_of happenings.now) }
    ensures { IfOk result (λ yes. IsTrue yes ↔ IsSerialOrder (groups_of happenings.now) order.now) }
{
    let places = places_of(alloc, happenings, steps)?;
    is_order_by(alloc, &places, order)
}
