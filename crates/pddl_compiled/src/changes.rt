//! Changes of effects.

ghost use Rattle.std.specs.Prelude.{◌≡◌, map, cond, ◌++◌, IfOk, IsOkAnd, OnOk};
ghost use Rattle.pddl_formula.specs.Terms.{atom_view};
ghost use Rattle.pddl_formula.specs.TypedLists.{typed_view};
ghost use Rattle.pddl_effect.specs.Effects.{amount_view, effect_view};
ghost use Rattle.pddl_compiled.specs.Compiled as value;
ghost use Rattle.pddl_task.specs.Names.{number_in};
ghost use Rattle.pddl_compiled.specs.Compiler.{wrapped, nested, places_of, increase_of, change_of};
ghost use Rattle.pddl_compiled.specs.Views.{change_view};
ghost use Rattle.pddl_compiled.specs.Scopes.{scope_view, range_items};

use crate::binder::bind;
use crate::boxes::{both_boxed, push_made};
use crate::compiled::Change;
use crate::conditions::compile_condition;
use crate::lookups::Lookups;
use crate::scope::Scope;
use crate::terms::places_of;
use pddl_effect::{Amount, Effect};
use pddl_formula::{Atom, TypedList};
use std::alloc::{AllocError, Allocator};

/// A change for each of the objects of a range.
///
/// Fails as the change failed, and where memory for it is refused.
fn for_each<'b, B: Allocator>(
    alloc: &'b B,
    range: Vec<usize, &'b B>,
    inner: Result<Change<&'b B>, AllocError>,
) -> Result<Change<&'b B>, AllocError>
    ensures { IfOk result (λ c. IsOkAnd inner.entry (λ i. change_view c ≡ value.each range.entry.items (change_view i))) }
{
    let (range, inner) = both_boxed(alloc, Ok(range), inner)?;
    Ok(Change::Forall(range, inner))
}

/// A change for each of the objects of ranges, the outermost first.
///
/// Fails as the change failed, and where memory for it is refused.
fn for_each_of<'b, B: Allocator>(
    alloc: &'b B,
    mut ranges: Vec<Vec<usize, &'b B>, &'b B>,
    inner: Result<Change<&'b B>, AllocError>,
) -> Result<Change<&'b B>, AllocError>
    ensures { IfOk result (λ c. IsOkAnd inner.entry (λ i. change_view c ≡ wrapped value.each (map range_items ranges.entry.items) (change_view i))) }
{
    let mut change = inner;
    while let Some(range) = ranges.pop() {
        change = for_each(alloc, range, change);
    }
    change
}

/// The change of an increase.
///
/// Fails where memory for it is refused.
fn increase_of<'f, 'b, A: Allocator, B: Allocator, L: Lookups<A, B>>(
    alloc: &'b B,
    lookups: &L,
    amount: &'f Amount<A>,
    scope: &'f Scope<'f>,
) -> Result<Change<&'b B>, AllocError>
    ensures { IfOk result (λ c. change_view c ≡ increase_of (L.tables lookups.now) (amount_view amount.now) (scope_view scope.now)) }
{
    match amount {
        Amount::Number(number) => Ok(Change::IncreaseBy(number.billionths() / 1_000_000_000)),
        Amount::Function(call) => {
            let function = lookups.function_number(call.function.as_bytes());
            let places = places_of(alloc, lookups, &*scope, &call.terms)?;
            Ok(Change::Increase(function, places))
        }
    }
}

/// The change that adds an atom, or else deletes it.
///
/// Fails where memory for it is refused.
fn atom_change<'f, 'b, A: Allocator, B: Allocator, L: Lookups<A, B>>(
    alloc: &'b B,
    lookups: &L,
    add: bool,
    atom: &'f Atom<A>,
    scope: &'f Scope<'f>,
) -> Result<Change<&'b B>, AllocError>
    ensures { IfOk result (λ c. change_view c ≡ cond add value.addition value.deletion (number_in (L.tables lookups.now).predicates (atom_view atom.now).predicate) (places_of (L.tables lookups.now) (scope_view scope.now) (atom_view atom.now).terms)) }
{
    let predicate = lookups.predicate_number(atom.predicate.as_bytes());
    let places = places_of(alloc, lookups, &*scope, &atom.terms)?;
    Ok(if add {
        Change::Add(predicate, places)
    } else {
        Change::Del(predicate, places)
    })
}

/// The change of an effect, in scope of variables.
///
/// Fails where memory for it is refused.
#[cycle(changes)]
pub fn compile_change<'f, 'b, A: Allocator, B: Allocator, L: Lookups<A, B>>(
    alloc: &'b B,
    lookups: &L,
    effect: &'f Effect<A>,
    scope: &'f Scope<'f>,
) -> Result<Change<&'b B>, AllocError>
    ensures { IfOk result (λ c. change_view c ≡ change_of (L.tables lookups.now) (effect_view effect.now) (scope_view scope.now)) }
{
    match effect {
        Effect::And(parts) => {
            let mut changes = Vec::new(alloc);
            let made = add_changes(alloc, lookups, parts, &*scope, &mut changes);
            made.and(Ok(Change::And(changes)))
        }
        Effect::Forall(variables, inner) => {
            compile_quantified(alloc, lookups, variables, inner, &*scope)
        }
        Effect::When(condition, inner) => {
            let condition = compile_condition(alloc, lookups, condition, &*scope);
            let inner = compile_change(alloc, lookups, inner, &*scope);
            let (condition, inner) = both_boxed(alloc, condition, inner)?;
            Ok(Change::When(condition, inner))
        }
        Effect::Add(atom) => atom_change(alloc, lookups, true, atom, &*scope),
        Effect::Del(atom) => atom_change(alloc, lookups, false, atom, &*scope),
        Effect::Increase(amount) => increase_of(alloc, lookups, amount, &*scope),
    }
}

/// The change of a quantifier. Behind a variable that ranges over no object nothing is compiled.
///
/// Fails where memory for it is refused.
#[cycle(changes)]
fn compile_quantified<'f, 'b, A: Allocator, B: Allocator, L: Lookups<A, B>>(
    alloc: &'b B,
    lookups: &L,
    variables: &'f TypedList<A>,
    inner: &'f Effect<A>,
    scope: &'f Scope<'f>,
) -> Result<Change<&'b B>, AllocError>
    ensures { IfOk result (λ c. change_view c ≡ nested value.each (value.both value.no_changes) (L.tables lookups.now) (map typed_view variables.now.items)
        (change_of (L.tables lookups.now) (effect_view inner.now)) (scope_view scope.now)) }
{
    let binder = bind(alloc, lookups, variables)?;
    let inner = if binder.closed {
        Ok(Change::And(Vec::new(alloc)))
    } else {
        let inside = Scope::Inside(&binder.slots, &*scope);
        compile_change(alloc, lookups, inner, &inside)
    };
    for_each_of(alloc, binder.ranges, inner)
}

/// Puts the changes of effects behind others.
///
/// Fails where memory for them is refused.
#[cycle(changes)]
fn add_changes<'f, 'b, A: Allocator, B: Allocator, L: Lookups<A, B>>(
    alloc: &'b B,
    lookups: &L,
    effects: &'f Vec<Effect<A>, A>,
    scope: &'f Scope<'f>,
    changes: &mut Vec<Change<&'b B>, &'b B>,
) -> Result<(), AllocError>
    ensures { OnOk result (map change_view changes.new.items ≡ map change_view changes.old.items ++ map (λ e. change_of (L.tables lookups.now) (effect_view e) (scope_view scope.now)) effects.now.items) }
{
    for effect in effects {
        push_made(changes, compile_change(alloc, lookups, effect, &*scope))?;
    }
    Ok(())
}
