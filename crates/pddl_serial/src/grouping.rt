//! Whether groups of step numbers are a split.

ghost use Rattle.std.specs.Prelude.{◌≡◌, ◌↔◌, ◌<◌, ℕ, Bool, true, false, List, All, map, IfOk, IsTrue, length, slice_index};
ghost use Rattle.std.specs.List.{list_all, concat};
ghost use Rattle.pddl_happenings.specs.Happenings.{HaveEachOnce};
ghost use Rattle.pddl_happenings.specs.Splits.{IsSplitOf};
ghost use Rattle.pddl_judge.specs.HappeningValues.{groups_of};
ghost use Rattle.pddl_serial.specs.Inner.Places.{is_at_one};

use crate::listing::{is_order_by, places_of};
use pddl_judge::Happening;
use std::alloc::{AllocError, Allocator};

/// Whether a group has a step, and each of its steps has the place of the first.
fn at_one(places: &[usize], group: &[u32]) -> bool
    requires { All (λ k. k < length places.now) group.now }
    ensures { result ≡ is_at_one (λ k. slice_index places.now k) group.now }
{
    if group.is_empty() {
        return false;
    }
    let place = places[group[0] as usize];
    for step in group {
        if places[*step as usize] != place {
            return false;
        }
    }
    true
}

/// Whether each group has a step, and its steps have one place.
fn all_at_one<G: Allocator>(places: &[usize], groups: &[Vec<u32, G>]) -> bool
    requires { All (λ g. All (λ k. k < length places.now) g.items) groups.now }
    ensures { result ≡ list_all (is_at_one (λ k. slice_index places.now k)) (map (λ g. g.items) groups.now) }
{
    for group in groups {
        if !at_one(places, group) {
            return false;
        }
    }
    true
}

/// The steps of groups one after another.
pub(crate) fn joined<'a, B: Allocator, G: Allocator>(
    alloc: &'a B,
    groups: &[Vec<u32, G>],
) -> Result<Vec<u32, &'a B>, AllocError>
    ensures { IfOk result (λ steps. steps.items ≡ concat (map (λ g. g.items) groups.now)) }
{
    let mut steps = Vec::new(alloc);
    for group in groups {
        steps.extend_from_slice(group)?;
    }
    Ok(steps)
}

/// Whether groups, whose steps one after another are `order`, are a split of happenings that have the numbers below `steps`.
pub(crate) fn is_split<B: Allocator, H: Allocator, G: Allocator>(
    alloc: &B,
    happenings: &[Happening<H>],
    steps: usize,
    groups: &[Vec<u32, G>],
    order: &[u32],
) -> Result<bool, AllocError>
    requires each { HaveEachOnce steps (groups_of happenings.now) }
    requires joined { order.now ≡ concat (map (λ g. g.items) groups.now) }
    ensures { IfOk result (λ yes. IsTrue yes ↔ IsSplitOf (groups_of happenings.now) (map (λ g. g.items) groups.now)) }
{
    let places = places_of(alloc, happenings, steps)?;
    let serial = is_order_by(alloc, &places, order)?;
    if !serial {
        return Ok(false);
    }
    Ok(all_at_one(&places, groups))
}
