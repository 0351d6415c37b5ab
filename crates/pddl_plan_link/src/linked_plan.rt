//! Links plans.

ghost use Rattle.std.specs.Prelude.{◌≡◌, ◌≤◌, [], length, IfOk, OnOk};
ghost use Rattle.pddl_plan.specs.Plans.{plan_view, steps_of};
ghost use Rattle.pddl_linked_task.specs.LinkedTasks.{task_of_files};
ghost use Rattle.pddl_linked_plan.specs.StepFaults.{most_steps};
ghost use Rattle.pddl_linked_plan.specs.LinkedSteps.{linked_steps};
ghost use Rattle.pddl_plan_tables.specs.ActionChanges.{AreChangesOf};
ghost use Rattle.pddl_plan_tables.specs.PlanTables.{ArePlanTables};
ghost use Rattle.pddl_plan_link.specs.StepVerdicts.{PlanVerdict};

use crate::checks::check_step;
use crate::fault::StepFault;
use pddl_linked_plan::Steps;
use pddl_linked_task::Task;
use pddl_plan::Plan;
use pddl_plan_tables::{Changes, PlanTables, no_changes, plan_tables};
use pddl_state::Atom;
use std::alloc::Allocator;

/// The most steps that a plan may have.
const MOST_STEPS: usize = 1_000_000;

/// An atom to look others up with.
fn no_call<'c, C: Allocator>(alloc: &'c C) -> Atom<&'c C> {
    Atom {
        predicate: 0,
        args: Vec::new(alloc),
    }
}

/// Links the steps of a plan one by one, and puts them in an empty list.
fn link_each<'t, 'm, 'a, 'b, A, B, C, D>(
    tables: &PlanTables<'t, 'm, 'a, 'b, A, B, C>,
    plan: &Plan<D>,
    numbers: &mut Vec<usize, &'b C>,
    changes: &mut Changes<'b, C>,
    call: &mut Atom<&'b C>,
    steps: &mut Steps<'b, C>,
) -> Result<(), StepFault>
where
    A: Allocator,
    B: Allocator,
    C: Allocator,
    D: Allocator,
    requires tables { ArePlanTables tables.now }
    requires short { length (steps_of (plan_view plan.now)) ≤ most_steps }
    requires changes { AreChangesOf (task_of_files tables.now.task.now) changes.old.items }
    requires steps { steps.old ≡ [] }
    ensures steps { OnOk result (steps.new ≡ linked_steps (task_of_files tables.now.task.now) (plan_view plan.now)) }
    ensures verdict { PlanVerdict (task_of_files tables.now.task.now) (plan_view plan.now) result }
{
    for place in 0..plan.len() {
        let action = check_step(tables, place, &plan.step(place), numbers, changes, call)?;
        steps.push(action, numbers, plan.moment(place))?;
    }
    Ok(())
}

/// Links the steps of a plan by the tables of a task.
fn link_in<'t, 'm, 'a, 'b, A, B, C, D>(
    tables: &PlanTables<'t, 'm, 'a, 'b, A, B, C>,
    plan: &Plan<D>,
) -> Result<Steps<'b, C>, StepFault>
where
    A: Allocator,
    B: Allocator,
    C: Allocator,
    D: Allocator,
    requires tables { ArePlanTables tables.now }
    requires short { length (steps_of (plan_view plan.now)) ≤ most_steps }
    ensures steps { IfOk result (λ steps. steps ≡ linked_steps (task_of_files tables.now.task.now) (plan_view plan.now)) }
    ensures verdict { PlanVerdict (task_of_files tables.now.task.now) (plan_view plan.now) result }
{
    let mut changes = no_changes(tables.alloc, tables.actions.len())?;
    let mut numbers = Vec::new(tables.alloc);
    let mut call = no_call(tables.alloc);
    let mut steps = Steps::new(tables.alloc);
    let made = link_each(
        tables,
        plan,
        &mut numbers,
        &mut changes,
        &mut call,
        &mut steps,
    );
    made.and(Ok(steps))
}

/// Links a plan to a task: its steps by numbers, in file order.
///
/// # Errors
///
/// - `PlanTooLong` for over 1,000,000 steps.
/// - Else of the first step that has a fault, the fault with the lowest number of 40 to 44 and 46; 44 is looked for where 46 does not stand.
/// - `Memory` where a growth was refused.
pub fn link_plan<'m, 'a, 'b, A: Allocator, B: Allocator, C: Allocator, D: Allocator>(
    alloc: &'b C,
    task: &Task<'m, 'a, A, B>,
    plan: &Plan<D>,
) -> Result<Steps<'b, C>, StepFault>
    ensures steps { IfOk result (λ steps. steps ≡ linked_steps (task_of_files task.now) (plan_view plan.now)) }
    ensures verdict { PlanVerdict (task_of_files task.now) (plan_view plan.now) result }
{
    if plan.len() > MOST_STEPS {
        return Err(StepFault::PlanTooLong);
    }
    let tables = plan_tables(alloc, task)?;
    let linked = link_in(&tables, plan);
    drop(tables);
    linked
}
