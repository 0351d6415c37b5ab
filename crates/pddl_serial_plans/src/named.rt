//! Linked steps by their names.

ghost use Rattle.std.specs.Prelude.{◌≡◌, ◌<◌, ◌≤◌, ◌*◌, All, map, length, OnOk};
ghost use Rattle.pddl_plan.specs.Building.{nothing_built, with_names};
ghost use Rattle.pddl_plan.specs.Plans.{built_plan};
ghost use Rattle.pddl_step_reader.specs.Inner.StepNames.{names_of_step};
ghost use Rattle.pddl_task.specs.Tasks.{object_names};
ghost use Rattle.pddl_linked_task.specs.LinkedTasks.{task_of_files};
ghost use Rattle.pddl_linked_plan.specs.LinkedSteps.{AreLinkedSteps};
ghost use Rattle.pddl_linked_plan.specs.LinkedLaws.{name_at, named_step, IsLinkedStep};
ghost use Rattle.pddl_linked_plan.specs.StepParts.{lent_step};
ghost use Rattle.pddl_serial_plans.specs.NewSteps.{picked, at_moments, plain_plan, timed_plan};

use pddl_linked_plan::{LinkedStep, Steps};
use pddl_linked_task::Task;
use pddl_plan::PlanBuilder;
use pddl_token::{Fixed, Name};
use std::alloc::{AllocError, Allocator};

/// The name of an object of the task.
fn object_name<'t, 'm, 'a, A: Allocator, B: Allocator>(
    task: &'t Task<'m, 'a, A, B>,
    number: usize,
) -> &'t Name<A>
    requires { number < length (object_names (task_of_files task.now)) }
    ensures { result.now ≡ name_at (object_names (task_of_files task.now)) number }
{
    task.object_name(number).unwrap()
}

/// Adds the names of objects of the task.
///
/// Fails where memory for them is refused.
fn add_objects<'m, 'a, 'c, A: Allocator, B: Allocator, D: Allocator>(
    plan: &mut PlanBuilder<&'c D>,
    task: &Task<'m, 'a, A, B>,
    numbers: &[usize],
) -> Result<(), AllocError>
    requires { All (λ n. n < length (object_names (task_of_files task.now))) numbers.now }
    ensures { OnOk result (plan.new ≡ with_names plan.old (map (name_at (object_names (task_of_files task.now))) numbers.now)) }
{
    for number in numbers {
        plan.push_name(object_name(task, *number))?;
    }
    Ok(())
}

/// Adds the names of a linked step.
///
/// Fails where memory for them is refused.
fn add_names<'m, 'a, 'c, A: Allocator, B: Allocator, D: Allocator>(
    plan: &mut PlanBuilder<&'c D>,
    task: &Task<'m, 'a, A, B>,
    step: LinkedStep<'_>,
) -> Result<(), AllocError>
    requires { IsLinkedStep (task_of_files task.now) (lent_step step) }
    ensures { OnOk result (plan.new ≡ with_names plan.old (names_of_step (named_step (task_of_files task.now) (lent_step step.entry)))) }
{
    plan.push_name(&task.action(step.action).name)?;
    add_objects(plan, task, step.objects)
}

/// Adds the steps of some numbers, in turn, by their names.
///
/// Fails where memory for them is refused.
pub(crate) fn add_steps<'m, 'a, 'b, 'c, A, B, C, D>(
    plan: &mut PlanBuilder<&'c D>,
    task: &Task<'m, 'a, A, B>,
    steps: &Steps<'b, C>,
    order: &[u32],
) -> Result<(), AllocError>
where
    A: Allocator,
    B: Allocator,
    C: Allocator,
    D: Allocator,
    requires none { plan.old ≡ nothing_built }
    requires linked { AreLinkedSteps (task_of_files task.now) steps.now }
    requires within { All (λ k. k < length steps.now) order.now }
    ensures { OnOk result (built_plan plan.new ≡ plain_plan (task_of_files task.now) (picked steps.now order.now)) }
{
    let _linked = task.domain();
    for number in order {
        add_names(plan, task, steps.step(*number as usize))?;
        plan.end_step()?;
    }
    Ok(())
}

/// A moment of so many whole units.
fn whole(units: u64) -> Fixed
    requires { units ≤ 1000000 }
    ensures { result ≡ units * 1000000000 }
{
    Fixed::new(units * 1_000_000_000).unwrap()
}

/// Adds the steps of some numbers, in turn, by their names, each at its moment.
///
/// Fails where memory for them is refused.
pub(crate) fn add_timed_steps<'m, 'a, 'b, 'c, A, B, C, D>(
    plan: &mut PlanBuilder<&'c D>,
    task: &Task<'m, 'a, A, B>,
    steps: &Steps<'b, C>,
    order: &[u32],
    moments: &[u64],
) -> Result<(), AllocError>
where
    A: Allocator,
    B: Allocator,
    C: Allocator,
    D: Allocator,
    requires none { plan.old ≡ nothing_built }
    requires linked { AreLinkedSteps (task_of_files task.now) steps.now }
    requires within { All (λ k. k < length steps.now) order.now }
    requires as_many { length moments.now ≡ length order.now }
    requires small { All (λ m. m ≤ 1000000) moments.now }
    ensures { OnOk result (built_plan plan.new ≡ timed_plan (task_of_files task.now) (at_moments (picked steps.now order.now) moments.now)) }
{
    let _linked = task.domain();
    for i in 0..order.len() {
        add_names(plan, task, steps.step(order[i] as usize))?;
        plan.end_step_at(whole(moments[i]))?;
    }
    Ok(())
}
