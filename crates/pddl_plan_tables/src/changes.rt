//! What actions' effects can cost, each found when a step first needs it.

ghost use Rattle.std.specs.Prelude.{◌≡◌, Some, None, map, replicate, slice_get, IfOk, OnOk};
ghost use Rattle.pddl_effect.specs.Effects.{amount_view, effect_view, effects_of};
ghost use Rattle.pddl_domain.specs.Actions.{action_view};
ghost use Rattle.pddl_compiled.specs.Views.{change_view};
ghost use Rattle.pddl_linked_task.specs.LinkedTasks.{task_of_files};
ghost use Rattle.pddl_plan_tables.specs.ChangeCosts.{HasSameCosts, is_function, has_function, some_has_function};
ghost use Rattle.pddl_plan_tables.specs.ActionChanges.{effect_of, AreChangesOf, HasChange};

use pddl_compiled::{Change, Scope, compile_change, parameter_slots};
use pddl_domain::Action;
use pddl_effect::{Amount, Effect};
use pddl_linked_task::Task;
use pddl_tables::TaskLookups;
use std::alloc::{AllocError, Allocator};

/// Changes by the numbers of their actions, those that were made.
pub type Changes<'c, C> = Vec<Option<Change<&'c C>>, &'c C>;

/// Whether an amount is a function term.
fn is_function<A: Allocator>(amount: &Amount<A>) -> bool
    ensures { result ≡ is_function (amount_view amount.now) }
{
    match amount {
        Amount::Number(_) => false,
        Amount::Function(_) => true,
    }
}

/// Whether an increase of an effect has a function term.
#[cycle(functions)]
fn has_function<A: Allocator>(effect: &Effect<A>) -> bool
    ensures { result ≡ has_function (effect_view effect.now) }
{
    match effect {
        Effect::And(parts) => some_has_function(parts),
        Effect::Forall(_, inner) | Effect::When(_, inner) => has_function(inner),
        Effect::Add(_) | Effect::Del(_) => false,
        Effect::Increase(amount) => is_function(amount),
    }
}

/// Whether an increase of some of these effects has a function term.
#[cycle(functions)]
fn some_has_function<A: Allocator>(effects: &Vec<Effect<A>, A>) -> bool
    ensures { result ≡ some_has_function (effects_of (map effect_view effects.now.items)) }
{
    for effect in effects {
        if has_function(effect) {
            return true;
        }
    }
    false
}

/// The change of an action's effect.
///
/// Fails where memory for it is refused.
fn effect_of<'m, 'a, 'c, A: Allocator, B: Allocator, C: Allocator>(
    alloc: &'c C,
    task: &Task<'m, 'a, A, B>,
    action: &Action<A>,
) -> Result<Change<&'c C>, AllocError>
    ensures { IfOk result (λ change. change_view change ≡ effect_of (task_of_files task.now) (action_view action.now)) }
{
    let slots = parameter_slots(alloc, &action.parameters)?;
    let scope = Scope::Inside(&slots, &Scope::Empty);
    compile_change(alloc, &TaskLookups::of(task), &action.effect, &scope)
}

/// A change with the costs of an action's effect. An effect without a function term in an increase has none, and is not compiled.
///
/// Fails where memory for it is refused.
fn costs_of<'m, 'a, 'c, A: Allocator, B: Allocator, C: Allocator>(
    alloc: &'c C,
    task: &Task<'m, 'a, A, B>,
    action: &Action<A>,
) -> Result<Change<&'c C>, AllocError>
    ensures { IfOk result (λ change. HasSameCosts (change_view change) (effect_of (task_of_files task.now) (action_view action.now))) }
{
    if has_function(&action.effect) {
        effect_of(alloc, task, action)
    } else {
        Ok(Change::And(Vec::new(alloc)))
    }
}

/// Places for the changes of so many actions, none of them made.
///
/// Fails where memory for them is refused.
pub fn no_changes<'c, C: Allocator>(
    alloc: &'c C,
    actions: usize,
) -> Result<Changes<'c, C>, AllocError>
    ensures { IfOk result (λ changes. changes.items ≡ replicate actions None) }
{
    let mut changes = Vec::with_capacity(alloc, actions)?;
    for _ in 0..actions {
        changes.push(None)?;
    }
    Ok(changes)
}

/// Makes the change with the costs of the action of a number, where it was not made.
///
/// Fails where memory for it is refused.
pub fn make_change<'m, 'a, 'c, A: Allocator, B: Allocator, C: Allocator>(
    alloc: &'c C,
    task: &Task<'m, 'a, A, B>,
    number: usize,
    action: &Action<A>,
    changes: &mut Changes<'c, C>,
) -> Result<(), AllocError>
    requires action { slice_get (task_of_files task.now).actions number ≡ Some (action_view action.now) }
    requires changes { AreChangesOf (task_of_files task.now) changes.old.items }
    ensures changes { OnOk result (AreChangesOf (task_of_files task.now) changes.new.items) }
    ensures made { OnOk result (HasChange changes.new.items number) }
{
    if changes[number].is_none() {
        changes[number] = Some(costs_of(alloc, task, action)?);
    }
    Ok(())
}
