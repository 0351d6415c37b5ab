//! The happenings of linked steps.

ghost use Rattle.std.specs.Prelude.{◌≡◌, ◌≤◌, false, length, slice_get, is_some, IfOk};
ghost use Rattle.std.specs.Option.{unwrap_or, option_map_or};
ghost use Rattle.pddl_happenings.specs.Happenings.{HaveEachOnce};
ghost use Rattle.pddl_judge.specs.HappeningValues.{groups_of, moments_of};
ghost use Rattle.pddl_linked_plan.specs.StepFaults.{most_steps};
ghost use Rattle.pddl_linked_plan.specs.StepParts.{lent_step};
ghost use Rattle.pddl_plan_steps.specs.AcceptedPlans.{moments_in, AreHappeningsOf};

use pddl_judge::{Happening, plain_happenings, timed_happenings};
use pddl_linked_plan::{LinkedStep, Steps};
use std::alloc::{AllocError, Allocator};

/// A step's moment in billionths, or 0 where it has none.
fn moment_of(step: LinkedStep<'_>) -> u64
    ensures { result ≡ unwrap_or (lent_step step.entry).moment 0 }
{
    match step.moment {
        Some(moment) => moment.billionths(),
        None => 0,
    }
}

/// The moments of steps, in file order.
///
/// Fails where memory for them is refused.
fn moments_in<'b, 'c, C: Allocator, D: Allocator>(
    alloc: &'c D,
    steps: &Steps<'b, C>,
) -> Result<Vec<u64, &'c D>, AllocError>
    ensures { IfOk result (λ moments. moments.items ≡ moments_in steps.now) }
{
    let mut moments = Vec::with_capacity(alloc, steps.len())?;
    for k in 0..steps.len() {
        moments.push(moment_of(steps.step(k)))?;
    }
    Ok(moments)
}

/// Whether the first of steps has a moment.
fn is_timed<'b, C: Allocator>(steps: &Steps<'b, C>) -> bool
    ensures { result ≡ option_map_or (λ s. is_some s.moment) (slice_get steps.now 0) false }
{
    match steps.get(0) {
        Some(step) => step.moment.is_some(),
        None => false,
    }
}

/// The happenings of linked steps: of a timed plan, for the distinct moments in rising order, the steps at that moment, in file order;
/// of a plain plan each step alone, in file order, with no moment.
///
/// Fails where memory for them is refused. Fox and Long, PDDL2.1, JAIR 20, 2003; of plain plans own.
pub fn happenings<'b, 'c, C: Allocator, D: Allocator>(
    alloc: &'c D,
    steps: &Steps<'b, C>,
) -> Result<Vec<Happening<&'c D>, &'c D>, AllocError>
    requires { length steps.now ≤ most_steps }
    ensures happenings { IfOk result (λ hs. AreHappeningsOf steps.now (moments_of hs.items) (groups_of hs.items)) }
    ensures each { IfOk result (λ hs. HaveEachOnce (length steps.now) (groups_of hs.items)) }
{
    if is_timed(steps) {
        let moments = moments_in(alloc, steps)?;
        timed_happenings(alloc, &moments)
    } else {
        plain_happenings(alloc, steps.len() as u32)
    }
}
