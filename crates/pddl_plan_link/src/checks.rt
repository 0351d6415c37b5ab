//! The faults of a step.

ghost use Rattle.std.specs.Prelude.{◌≡◌, ◌<◌, true, Some, map, length, reverse, slice_get, not, IfOk, OnOk};
ghost use Rattle.std.specs.List.{list_any};
ghost use Rattle.pddl_domain.specs.Actions.{ActionValue, action_view};
ghost use Rattle.pddl_task.specs.Names.{is_in, number_in};
ghost use Rattle.pddl_task.specs.Tasks.{object_names};
ghost use Rattle.pddl_linked_task.specs.LinkedTasks.{task_of_files};
ghost use Rattle.pddl_tables.specs.Lookups.{price_in};
ghost use Rattle.pddl_plan_tables.specs.ChangeCosts.{is_unpriced, some_cost};
ghost use Rattle.pddl_plan_tables.specs.ActionChanges.{effect_of, AreChangesOf};
ghost use Rattle.pddl_linked_plan.specs.StepFaults.{action_names, step_faults};
ghost use Rattle.pddl_linked_plan.specs.FittingObjects.{some_unfit};
ghost use Rattle.pddl_plan_tables.specs.PlanTables.{ArePlanTables};
ghost use Rattle.pddl_plan_link.specs.StepVerdicts.{StepVerdict};

use crate::fault::StepFault;
use pddl_compiled::Frame;
use pddl_domain::Action;
use pddl_linked_task::Task;
use pddl_plan::Step;
use pddl_plan_tables::{Changes, PlanTables, make_change, some_costless};
use pddl_state::Atom;
use std::alloc::{AllocError, Allocator};

/// Puts the numbers of a step's objects in place of what is listed, and answers whether all of them are known.
///
/// Fails where memory for them is refused.
fn number_objects<'m, 'a, 'c, A: Allocator, B: Allocator, C: Allocator, D: Allocator>(
    task: &Task<'m, 'a, A, B>,
    step: &Step<'_, D>,
    numbers: &mut Vec<usize, &'c C>,
) -> Result<bool, AllocError>
    ensures known { IfOk result (λ yes. yes ≡ not (list_any (λ o. not (is_in (object_names (task_of_files task.now)) o)) step.now.objects)) }
    ensures numbers { IfOk result (λ yes. yes ≡ true → numbers.new.items ≡ map (number_in (object_names (task_of_files task.now))) step.now.objects) }
{
    numbers.clear();
    for place in 0..step.arity() {
        match task.object_number(step.object(place)) {
            Some(number) => numbers.push(number)?,
            None => return Ok(false),
        }
    }
    Ok(true)
}

/// Whether an object, by its number, does not fit its parameter of an action, which has so many.
fn some_unfit<'m, 'a, A: Allocator, B: Allocator>(
    task: &Task<'m, 'a, A, B>,
    action: usize,
    numbers: &[usize],
    parameters: usize,
) -> bool
    requires action { action < length (task_of_files task.now).actions }
    requires parameters { (a : ActionValue) → slice_get (task_of_files task.now).actions action ≡ Some a → length a.parameters ≡ parameters }
    ensures { (a : ActionValue) → slice_get (task_of_files task.now).actions action ≡ Some a → result ≡ some_unfit (task_of_files task.now) numbers.now a.parameters }
{
    for parameter in 0..numbers.len().min(parameters) {
        if !task.fits_parameter(numbers[parameter], action, parameter) {
            return true;
        }
    }
    false
}

/// Whether an increase of an action, with the objects of these numbers for its parameters, has no cost.
///
/// Fails where memory for the action's change, or for an atom that is looked up, is refused.
fn lacks_cost<'t, 'm, 'a, 'c, A: Allocator, B: Allocator, C: Allocator>(
    tables: &PlanTables<'t, 'm, 'a, 'c, A, B, C>,
    number: usize,
    action: &Action<A>,
    numbers: &[usize],
    changes: &mut Changes<'c, C>,
    call: &mut Atom<&'c C>,
) -> Result<bool, AllocError>
    requires action { slice_get (task_of_files tables.now.task.now).actions number ≡ Some (action_view action.now) }
    requires changes { AreChangesOf (task_of_files tables.now.task.now) changes.old.items }
    ensures answer { IfOk result (λ yes. yes ≡ some_cost (effect_of (task_of_files tables.now.task.now) (action_view action.now)) (is_unpriced (price_in tables.now.prices)) (reverse numbers.now)) }
    ensures changes { OnOk result (AreChangesOf (task_of_files tables.now.task.now) changes.new.items) }
{
    make_change(tables.alloc, tables.task, number, action, changes)?;
    match &changes[number] {
        Some(change) => some_costless(&tables.prices, change, &Frame::Step(numbers), call),
        None => Ok(false),
    }
}

/// The number of a step's action, where the step has no fault, with the numbers of its objects in place of what is listed.
pub(crate) fn check_step<'t, 'm, 'a, 'c, A, B, C, D>(
    tables: &PlanTables<'t, 'm, 'a, 'c, A, B, C>,
    place: usize,
    step: &Step<'_, D>,
    numbers: &mut Vec<usize, &'c C>,
    changes: &mut Changes<'c, C>,
    call: &mut Atom<&'c C>,
) -> Result<usize, StepFault>
where
    A: Allocator,
    B: Allocator,
    C: Allocator,
    D: Allocator,
    requires tables { ArePlanTables tables.now }
    requires changes { AreChangesOf (task_of_files tables.now.task.now) changes.old.items }
    ensures changes { OnOk result (AreChangesOf (task_of_files tables.now.task.now) changes.new.items) }
    ensures verdict { StepVerdict (step_faults (task_of_files tables.now.task.now) step.now) place result }
    ensures action { IfOk result (λ n. n ≡ number_in (action_names (task_of_files tables.now.task.now)) step.now.action) }
    ensures objects { OnOk result (numbers.new.items ≡ map (number_in (object_names (task_of_files tables.now.task.now))) step.now.objects) }
{
    let Some((number, _, found)) = tables.actions.get_full(step.action()) else {
        return Err(StepFault::UnknownAction { step: place });
    };
    let action = found.action;
    if step.arity() != action.parameters.len() {
        return Err(StepFault::StepArity { step: place });
    }
    if !number_objects(tables.task, step, numbers)? {
        return Err(StepFault::UnknownObject { step: place });
    }
    if some_unfit(tables.task, number, numbers, action.parameters.len()) {
        return Err(StepFault::StepType { step: place });
    }
    if found.size > 1_000_000 {
        return Err(StepFault::StepTooLarge { step: place });
    }
    if lacks_cost(tables, number, action, numbers, changes, call)? {
        return Err(StepFault::CostUndefined { step: place });
    }
    Ok(number)
}
