//! The actions that a plan's steps use, by numbers.

ghost use Rattle.std.specs.Prelude.{◌≡◌, ◌<◌, ℕ, false, true, Some, length, slice_get, IfOk, MatchOption};
ghost use Rattle.pddl_domain.specs.Actions.{ActionValue, action_view};
ghost use Rattle.pddl_linked_task.specs.LinkedTasks.{task_of_files};
ghost use Rattle.pddl_task.specs.Tasks.{TaskValue};
ghost use Rattle.pddl_compiled.specs.Compiler.{condition_of, change_of};
ghost use Rattle.pddl_compiled.specs.Scopes.{scope_view};
ghost use Rattle.pddl_compiled.specs.TaskTables.{tables_of};
ghost use Rattle.pddl_compiled.specs.Views.{condition_view, change_view};
ghost use Rattle.pddl_linked_plan.specs.LinkedSteps.{LinkedStepValue};
ghost use Rattle.pddl_compiled_plan.specs.CompiledSteps.{form_in, form_of, AreForms, AreHeld, IsHeld};
ghost use Rattle.pddl_step.specs.Marks.{AreMarked};

use pddl_build::both_made;
use pddl_compiled::{Lookups, Scope, compile_change, compile_condition, parameter_slots};
use pddl_compiled_plan::{CompiledAction, UsedActions};
use pddl_domain::Action;
use pddl_linked_plan::Steps;
use pddl_linked_task::Task;
use std::alloc::{AllocError, Allocator};

/// An action by numbers, with what is in scope in it.
///
/// Fails where memory for it is refused.
fn compile_in_scope<'s, 'c, A: Allocator, D: Allocator, L: Lookups<A, D>>(
    alloc: &'c D,
    lookups: &L,
    action: &Action<A>,
    scope: &'s Scope<'s>,
) -> Result<CompiledAction<&'c D>, AllocError>
    ensures precondition { IfOk result (λ c. condition_view c.precondition ≡ condition_of (L.tables lookups.now) (action_view action.now).precondition (scope_view scope.now)) }
    ensures effect { IfOk result (λ c. change_view c.effect ≡ change_of (L.tables lookups.now) (action_view action.now).effect (scope_view scope.now)) }
{
    let precondition = compile_condition(alloc, lookups, &action.precondition, scope);
    let effect = compile_change(alloc, lookups, &action.effect, scope);
    let (precondition, effect) = both_made(precondition, effect)?;
    Ok(CompiledAction {
        precondition,
        effect,
    })
}

/// An action by numbers.
///
/// Fails where memory for it is refused.
fn compile_action<'c, A: Allocator, D: Allocator, L: Lookups<A, D>>(
    alloc: &'c D,
    lookups: &L,
    action: &Action<A>,
) -> Result<CompiledAction<&'c D>, AllocError>
    ensures { (task : TaskValue) → L.tables lookups.now ≡ tables_of task → IfOk result (λ c. form_in c ≡ form_of task (action_view action.now)) }
{
    let slots = parameter_slots(alloc, &action.parameters)?;
    let compiled = compile_in_scope(
        alloc,
        lookups,
        action,
        &Scope::Inside(&slots, &Scope::Empty),
    );
    drop(slots);
    compiled
}

/// A mark for each of so many actions, set for those of steps.
///
/// Fails where memory for them is refused.
fn used_marks<'b, 'c, C: Allocator, D: Allocator>(
    alloc: &'c D,
    steps: &Steps<'b, C>,
    count: usize,
) -> Result<Vec<bool, &'c D>, AllocError>
    requires { (k : ℕ) (s : LinkedStepValue) → slice_get steps.now k ≡ Some s → s.action < count }
    ensures as_many { IfOk result (λ marks. length marks.items ≡ count) }
    ensures marked { IfOk result (λ marks. AreMarked steps.now marks.items) }
{
    let mut marks = vec![in alloc; false; count]?;
    for k in 0..steps.len() {
        marks[steps.step(k).action] = true;
    }
    Ok(marks)
}

/// The action of a number, where it is marked.
///
/// Fails where memory for it is refused.
fn compile_marked<'m, 'a, 'c, A, B, D, L>(
    alloc: &'c D,
    lookups: &L,
    task: &Task<'m, 'a, A, B>,
    number: usize,
    mark: bool,
) -> Result<Option<CompiledAction<&'c D>>, AllocError>
where
    A: Allocator,
    B: Allocator,
    D: Allocator,
    L: Lookups<A, D>,
    requires tables { L.tables lookups.now ≡ tables_of (task_of_files task.now) }
    requires range { number < length (task_of_files task.now).actions }
    ensures { IfOk result (λ held. MatchOption held (mark ≡ false) (λ c. (a : ActionValue) → slice_get (task_of_files task.now).actions number ≡ Some a → form_in c ≡ form_of (task_of_files task.now) a)) }
{
    if mark {
        Ok(Some(compile_action(alloc, lookups, task.action(number))?))
    } else {
        Ok(None)
    }
}

/// The actions that are marked.
///
/// Fails where memory for them is refused.
fn compile_all_marked<'m, 'a, 'c, A, B, D, L>(
    alloc: &'c D,
    lookups: &L,
    task: &Task<'m, 'a, A, B>,
    marks: &[bool],
) -> Result<UsedActions<'c, D>, AllocError>
where
    A: Allocator,
    B: Allocator,
    D: Allocator,
    L: Lookups<A, D>,
    requires tables { L.tables lookups.now ≡ tables_of (task_of_files task.now) }
    requires as_many { length marks.now ≡ length (task_of_files task.now).actions }
    ensures forms { IfOk result (λ held. AreForms (task_of_files task.now) held.items) }
    ensures held { IfOk result (λ held. (n : ℕ) → slice_get marks.now n ≡ Some true → IsHeld held.items n) }
{
    let mut held = Vec::with_capacity(alloc, marks.len())?;
    for number in 0..marks.len() {
        held.push(compile_marked(alloc, lookups, task, number, marks[number])?)?;
    }
    Ok(held)
}

/// The actions that steps use.
///
/// Fails where memory for them is refused.
pub(crate) fn used_actions<'m, 'a, 'b, 'c, A, B, C, D, L>(
    alloc: &'c D,
    lookups: &L,
    task: &Task<'m, 'a, A, B>,
    steps: &Steps<'b, C>,
) -> Result<UsedActions<'c, D>, AllocError>
where
    A: Allocator,
    B: Allocator,
    C: Allocator,
    D: Allocator,
    L: Lookups<A, D>,
    requires tables { L.tables lookups.now ≡ tables_of (task_of_files task.now) }
    requires range { (k : ℕ) (s : LinkedStepValue) → slice_get steps.now k ≡ Some s → s.action < length (task_of_files task.now).actions }
    ensures forms { IfOk result (λ held. AreForms (task_of_files task.now) held.items) }
    ensures used { IfOk result (λ held. AreHeld steps.now held.items) }
{
    let domain = task.domain();
    let marks = used_marks(alloc, steps, domain.actions.len())?;
    compile_all_marked(alloc, lookups, task, &marks)
}
