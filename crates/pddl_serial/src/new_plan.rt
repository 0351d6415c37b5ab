//! The timed plan of a split.

ghost use Rattle.std.specs.Prelude.{◌≡◌, ◌≤◌, ◌++◌, ℕ, List, All, map, IfOk, IfSome, MatchOption};
ghost use Rattle.std.specs.List.{concat};
ghost use Rattle.pddl_happenings.specs.Happenings.{HaveEachOnce};
ghost use Rattle.pddl_happenings.specs.Splits.{IsSplitOf, split_moments};
ghost use Rattle.pddl_judge.specs.HappeningValues.{groups_of};

use crate::grouping::{is_split, joined};
use pddl_judge::Happening;
use std::alloc::{AllocError, Allocator};

/// The steps of a timed plan, as numbers of the steps of another one, and the moment of each.
#[derive(Drop)]
pub struct NewPlan<B: Allocator> {
    /// The step of the other plan that each step is, in file order.
    pub order: Vec<u32, B>,
    /// The moment of each step, a whole number from 1.
    pub moments: Vec<u64, B>,
}

/// Adds a moment for each step of a group.
fn add_moments<B: Allocator>(
    moments: &mut Vec<u64, B>,
    group: &[u32],
    moment: u64,
) -> Result<(), AllocError>
    ensures { IfOk result (λ _. moments.new.items ≡ moments.old.items ++ map (λ k. moment) group.now) }
{
    for _ in group {
        moments.push(moment)?;
    }
    Ok(())
}

/// The moments of the steps of groups, from 1.
fn moments_of_groups<'a, B: Allocator, G: Allocator>(
    alloc: &'a B,
    groups: &[Vec<u32, G>],
) -> Result<Vec<u64, &'a B>, AllocError>
    ensures { IfOk result (λ moments. moments.items ≡ split_moments 1 (map (λ g. g.items) groups.now)) }
{
    let mut moments = Vec::new(alloc);
    for (i, group) in groups.iter().enumerate() {
        add_moments(&mut moments, group, i as u64 + 1)?;
    }
    Ok(moments)
}

/// The timed plan of groups of the steps of happenings that have the numbers below `steps`: the k-th group at the moment k,
/// from 1, its steps in the group's order.
///
/// `split`: None is answered exactly where the groups are no split: one is empty, or not within one happening, or their
/// steps one after another are no serialisation. `order`, `moments`: the plan's steps are those of the groups in turn, each
/// with its group's moment. `within`: so no moment is past the
/// number of steps. Fails only for want of memory. Own.
pub fn split<'a, B: Allocator, H: Allocator, G: Allocator>(
    alloc: &'a B,
    happenings: &[Happening<H>],
    steps: usize,
    groups: &[Vec<u32, G>],
) -> Result<Option<NewPlan<&'a B>>, AllocError>
    requires { HaveEachOnce steps (groups_of happenings.now) }
    ensures split { IfOk result (λ found. MatchOption found
        (IsSplitOf (groups_of happenings.now) (map (λ g. g.items) groups.now) → ⊥)
        (λ plan. IsSplitOf (groups_of happenings.now) (map (λ g. g.items) groups.now))) }
    ensures order { IfOk result (λ found. IfSome found (λ plan. plan.order.items ≡ concat (map (λ g. g.items) groups.now))) }
    ensures moments { IfOk result (λ found. IfSome found (λ plan. plan.moments.items ≡ split_moments 1 (map (λ g. g.items) groups.now))) }
    ensures within { IfOk result (λ found. IfSome found (λ plan. All (λ m. (1 ≤ m) × (m ≤ steps)) plan.moments.items)) }
{
    let order = joined(alloc, groups)?;
    let good = is_split(alloc, happenings, steps, groups, &order)?;
    if !good {
        return Ok(None);
    }
    let moments = moments_of_groups(alloc, groups)?;
    Ok(Some(NewPlan { order, moments }))
}
