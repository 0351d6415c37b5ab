//! Serial forms of accepted plans.

ghost use Rattle.std.specs.Prelude.{IfOk};
ghost use Rattle.pddl_plan.specs.Plans.{plan_view};
ghost use Rattle.pddl_happenings.specs.NamedSteps.{by_name};
ghost use Rattle.pddl_judge.specs.HappeningValues.{groups_of, moments_of};
ghost use Rattle.pddl_linked_task.specs.LinkedTasks.{task_of_files};
ghost use Rattle.pddl_plan_steps.specs.NumberedSteps.{number_of};
ghost use Rattle.pddl_serial.specs.Orders.{in_order};
ghost use Rattle.pddl_serial_plans.specs.NewPlans.{IsAcceptedOf, IsSerialPlan};

use crate::named::add_steps;
use pddl_judge::Accepted;
use pddl_linked_plan::Steps;
use pddl_linked_task::Task;
use pddl_plan::{Plan, PlanBuilder};
use pddl_serial::Order;
use pddl_state::AtomStore;
use std::alloc::{AllocError, Allocator};

/// The plain plan of an accepted plan's happenings in turn, the steps of each in file order or reversed.
///
/// It is linked to the task, and accepted with the same end and at the same cost. What is accepted has to be that of this task and
/// these steps. Fails where memory for the plan is refused. Own.
pub fn serialise<'m, 'a, 'b, 'c, A, B, C, D, E, F, S>(
    alloc: &'c D,
    task: &Task<'m, 'a, A, B>,
    steps: &Steps<'b, C>,
    accepted: &Accepted<E, F, S>,
    order: Order,
) -> Result<Plan<&'c D>, AllocError>
where
    A: Allocator,
    B: Allocator,
    C: Allocator,
    D: Allocator,
    E: Allocator,
    F: Allocator,
    S: AtomStore<E>,
    requires { IsAcceptedOf (task_of_files task.now) steps.now (moments_of accepted.now.happenings.items) (groups_of accepted.now.happenings.items)
        (by_name (number_of (task_of_files task.now)) (S.content accepted.now.store accepted.now.end)) accepted.now.cost }
    ensures { IfOk result (λ plan. IsSerialPlan (task_of_files task.now) steps.now (in_order order (groups_of accepted.now.happenings.items))
        (by_name (number_of (task_of_files task.now)) (S.content accepted.now.store accepted.now.end)) accepted.now.cost (plan_view plan)) }
{
    let _linked = task.domain();
    let order = pddl_serial::serialise(alloc, &accepted.happenings, order)?;
    let mut plan = PlanBuilder::new(alloc);
    let made = add_steps(&mut plan, task, steps, &order);
    made.and(Ok(plan.finish()))
}
