//! Splits of accepted plans.

ghost use Rattle.std.specs.Prelude.{◌≡◌, ◌<◌, ◌≤◌, All, map, length, IfOk, IsErrOf};
ghost use Rattle.pddl_plan.specs.Plans.{plan_view};
ghost use Rattle.pddl_happenings.specs.NamedSteps.{by_name};
ghost use Rattle.pddl_happenings.specs.Splits.{IsSplitOf};
ghost use Rattle.pddl_judge.specs.HappeningValues.{groups_of, moments_of};
ghost use Rattle.pddl_linked_task.specs.LinkedTasks.{task_of_files};
ghost use Rattle.pddl_linked_plan.specs.LinkedSteps.{AreLinkedSteps};
ghost use Rattle.pddl_plan_steps.specs.NumberedSteps.{number_of};
ghost use Rattle.pddl_serial.specs.Cuts.{cut_in_order};
ghost use Rattle.pddl_serial_plans.specs.NewPlans.{IsAcceptedOf, IsSplitPlan};
ghost use Rattle.pddl_serial_plans.specs.NewSteps.{picked, at_moments, timed_plan};

use crate::fault::{SplitFault, of_a_split, or_memory};
use crate::named::add_timed_steps;
use pddl_judge::Accepted;
use pddl_linked_plan::Steps;
use pddl_linked_task::Task;
use pddl_plan::{Plan, PlanBuilder};
use pddl_serial::{NewPlan, Order, groups_of_at_most};
use pddl_state::AtomStore;
use std::alloc::{AllocError, Allocator};

/// The timed plan of steps by their numbers, in turn, each at its moment; of no steps it is plain.
///
/// Fails where memory for it is refused.
fn timed_plan<'m, 'a, 'b, 'c, A, B, C, D>(
    alloc: &'c D,
    task: &Task<'m, 'a, A, B>,
    steps: &Steps<'b, C>,
    new: &NewPlan<&'c D>,
) -> Result<Plan<&'c D>, AllocError>
where
    A: Allocator,
    B: Allocator,
    C: Allocator,
    D: Allocator,
    requires linked { AreLinkedSteps (task_of_files task.now) steps.now }
    requires within { All (λ k. k < length steps.now) new.now.order.items }
    requires as_many { length new.now.moments.items ≡ length new.now.order.items }
    requires small { All (λ m. m ≤ 1000000) new.now.moments.items }
    ensures { IfOk result (λ plan. plan_view plan ≡ timed_plan (task_of_files task.now) (at_moments (picked steps.now new.now.order.items) new.now.moments.items)) }
{
    let mut plan = PlanBuilder::new(alloc);
    let made = add_timed_steps(&mut plan, task, steps, &new.order, &new.moments);
    made.and(Ok(plan.finish()))
}

/// The timed plan of groups of an accepted plan's steps: those of the k-th group, in its order, at the moment k, from 1; of no groups
/// it is the empty plain plan.
///
/// `no_split`, `split`: NotASplit is answered exactly where the groups are no split: one is empty, or not within one happening, or
/// their steps one after another are no serialisation. `plan`: else the plan is linked to the task, its happenings are the groups in turn,
/// and it is accepted with the same end and at the same cost. What is accepted has to be that of this task and these steps. Own.
///
/// # Errors
///
/// - `NotASplit`, as said.
/// - `Memory` where a growth was refused.
pub fn split<'m, 'a, 'b, 'c, A, B, C, D, E, F, G, S>(
    alloc: &'c D,
    task: &Task<'m, 'a, A, B>,
    steps: &Steps<'b, C>,
    accepted: &Accepted<E, F, S>,
    groups: &[Vec<u32, G>],
) -> Result<Plan<&'c D>, SplitFault>
where
    A: Allocator,
    B: Allocator,
    C: Allocator,
    D: Allocator,
    E: Allocator,
    F: Allocator,
    G: Allocator,
    S: AtomStore<E>,
    requires { IsAcceptedOf (task_of_files task.now) steps.now (moments_of accepted.now.happenings.items) (groups_of accepted.now.happenings.items)
        (by_name (number_of (task_of_files task.now)) (S.content accepted.now.store accepted.now.end)) accepted.now.cost }
    ensures no_split { IsErrOf result SplitFault.NotASplit → IsSplitOf (groups_of accepted.now.happenings.items) (map (λ g. g.items) groups.now) → ⊥ }
    ensures split { IfOk result (λ plan. IsSplitOf (groups_of accepted.now.happenings.items) (map (λ g. g.items) groups.now)) }
    ensures plan { IfOk result (λ plan. IsSplitPlan (task_of_files task.now) steps.now (map (λ g. g.items) groups.now)
        (by_name (number_of (task_of_files task.now)) (S.content accepted.now.store accepted.now.end)) accepted.now.cost (plan_view plan)) }
{
    let _linked = task.domain();
    match pddl_serial::split(alloc, &accepted.happenings, steps.len(), groups)? {
        Some(new) => {
            let plan = timed_plan(alloc, task, steps, &new);
            drop(new);
            or_memory(plan)
        }
        None => Err(SplitFault::NotASplit),
    }
}

/// The timed plan of an accepted plan's happenings in turn, the steps of each in file order or reversed and cut into groups of `size`
/// steps, the last of a happening perhaps smaller: the plan of a split, as [`split`] makes it.
///
/// It is linked to the task, and accepted with the same end and at the same cost. What is accepted has to be that of this task and
/// these steps. Fails where memory for the plan is refused. Own.
pub fn split_in_groups<'m, 'a, 'b, 'c, A, B, C, D, E, F, S>(
    alloc: &'c D,
    task: &Task<'m, 'a, A, B>,
    steps: &Steps<'b, C>,
    accepted: &Accepted<E, F, S>,
    size: usize,
    order: Order,
) -> Result<Plan<&'c D>, AllocError>
where
    A: Allocator,
    B: Allocator,
    C: Allocator,
    D: Allocator,
    E: Allocator,
    F: Allocator,
    S: AtomStore<E>,
    requires size { 0 < size }
    requires accepted { IsAcceptedOf (task_of_files task.now) steps.now (moments_of accepted.now.happenings.items) (groups_of accepted.now.happenings.items)
        (by_name (number_of (task_of_files task.now)) (S.content accepted.now.store accepted.now.end)) accepted.now.cost }
    ensures { IfOk result (λ plan. IsSplitPlan (task_of_files task.now) steps.now (cut_in_order size order (groups_of accepted.now.happenings.items))
        (by_name (number_of (task_of_files task.now)) (S.content accepted.now.store accepted.now.end)) accepted.now.cost (plan_view plan)) }
{
    let _linked = task.domain();
    let groups = groups_of_at_most(alloc, &accepted.happenings, size, order)?;
    let plan = split(alloc, task, steps, accepted, &groups);
    drop(groups);
    of_a_split(plan)
}
