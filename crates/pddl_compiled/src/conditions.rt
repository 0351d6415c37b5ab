//! Conditions of formulas.

ghost use Rattle.std.specs.Prelude.{◌≡◌, map, true, cond, ◌++◌, IfOk, IsOkAnd, OnOk};
ghost use Rattle.pddl_formula.specs.TypedLists.{typed_view};
ghost use Rattle.pddl_formula.specs.Formulas.{formula_view};
ghost use Rattle.pddl_compiled.specs.Compiled as value;
ghost use Rattle.pddl_compiled.specs.Compiler.{wrapped, nested, condition_of};
ghost use Rattle.pddl_compiled.specs.Views.{condition_view};
ghost use Rattle.pddl_compiled.specs.Scopes.{scope_view, range_items};

use crate::binder::bind;
use crate::boxes::{both_boxed, both_in_boxes, boxed, push_made};
use crate::compiled::Condition;
use crate::lookups::Lookups;
use crate::scope::Scope;
use crate::terms::{equality, places_of};
use pddl_formula::{Formula, TypedList};
use std::alloc::{AllocError, Allocator};

/// A condition that holds for some objects of a range, or else for all of them.
///
/// Fails as the condition failed, and where memory for it is refused.
fn quantified<'b, B: Allocator>(
    alloc: &'b B,
    some: bool,
    range: Vec<usize, &'b B>,
    inner: Result<Condition<&'b B>, AllocError>,
) -> Result<Condition<&'b B>, AllocError>
    ensures { IfOk result (λ c. IsOkAnd inner.entry (λ i. condition_view c ≡ cond some value.existential value.universal range.entry.items (condition_view i))) }
{
    let (range, inner) = both_boxed(alloc, Ok(range), inner)?;
    Ok(if some {
        Condition::Exists(range, inner)
    } else {
        Condition::Forall(range, inner)
    })
}

/// A condition that holds for some objects of ranges, the outermost first, or else for all of them.
///
/// Fails as the condition failed, and where memory for it is refused.
fn quantified_by<'b, B: Allocator>(
    alloc: &'b B,
    some: bool,
    mut ranges: Vec<Vec<usize, &'b B>, &'b B>,
    inner: Result<Condition<&'b B>, AllocError>,
) -> Result<Condition<&'b B>, AllocError>
    ensures { IfOk result (λ c. IsOkAnd inner.entry (λ i. condition_view c ≡ wrapped (cond some value.existential value.universal) (map range_items ranges.entry.items) (condition_view i))) }
{
    let mut condition = inner;
    while let Some(range) = ranges.pop() {
        condition = quantified(alloc, some, range, condition);
    }
    condition
}

/// The condition of a formula, in scope of variables.
///
/// Fails where memory for it is refused.
#[cycle(conditions)]
pub fn compile_condition<'f, 'b, A: Allocator, B: Allocator, L: Lookups<A, B>>(
    alloc: &'b B,
    lookups: &L,
    formula: &'f Formula<A>,
    scope: &'f Scope<'f>,
) -> Result<Condition<&'b B>, AllocError>
    ensures { IfOk result (λ c. condition_view c ≡ condition_of (L.tables lookups.now) (formula_view formula.now) (scope_view scope.now)) }
{
    match formula {
        Formula::Atom(atom) => {
            let predicate = lookups.predicate_number(atom.predicate.as_bytes());
            let places = places_of(alloc, lookups, &*scope, &atom.terms)?;
            Ok(Condition::Atom(predicate, places))
        }
        Formula::Equal(first, second) => equality(lookups, &*scope, first, second),
        Formula::Not(inner) => {
            let inner = compile_condition(alloc, lookups, inner, &*scope);
            Ok(Condition::Not(boxed(alloc, inner)?))
        }
        Formula::Imply(first, second) => {
            let first = compile_condition(alloc, lookups, first, &*scope);
            let second = compile_condition(alloc, lookups, second, &*scope);
            let (first, second) = both_in_boxes(alloc, first, second)?;
            Ok(Condition::Imply(first, second))
        }
        Formula::And(parts) => compile_parts(alloc, lookups, true, parts, &*scope),
        Formula::Or(parts) => compile_parts(alloc, lookups, false, parts, &*scope),
        Formula::Exists(variables, inner) => {
            compile_quantified(alloc, lookups, true, variables, inner, &*scope)
        }
        Formula::Forall(variables, inner) => {
            compile_quantified(alloc, lookups, false, variables, inner, &*scope)
        }
    }
}

/// The condition of a quantifier, for some objects or else for all. Behind a variable that ranges over no object nothing is compiled.
///
/// Fails where memory for it is refused.
#[cycle(conditions)]
fn compile_quantified<'f, 'b, A: Allocator, B: Allocator, L: Lookups<A, B>>(
    alloc: &'b B,
    lookups: &L,
    some: bool,
    variables: &'f TypedList<A>,
    inner: &'f Formula<A>,
    scope: &'f Scope<'f>,
) -> Result<Condition<&'b B>, AllocError>
    ensures { IfOk result (λ c. condition_view c ≡ nested (cond some value.existential value.universal) (value.known true) (L.tables lookups.now) (map typed_view variables.now.items)
        (condition_of (L.tables lookups.now) (formula_view inner.now)) (scope_view scope.now)) }
{
    let binder = bind(alloc, lookups, variables)?;
    let inner = if binder.closed {
        Ok(Condition::Known(true))
    } else {
        let inside = Scope::Inside(&binder.slots, &*scope);
        compile_condition(alloc, lookups, inner, &inside)
    };
    quantified_by(alloc, some, binder.ranges, inner)
}

/// The condition that all of some formulas hold, or else that one of them does.
///
/// Fails where memory for it is refused.
#[cycle(conditions)]
fn compile_parts<'f, 'b, A: Allocator, B: Allocator, L: Lookups<A, B>>(
    alloc: &'b B,
    lookups: &L,
    all: bool,
    formulas: &'f Vec<Formula<A>, A>,
    scope: &'f Scope<'f>,
) -> Result<Condition<&'b B>, AllocError>
    ensures { IfOk result (λ c. condition_view c ≡ cond all value.conjunction value.disjunction (value.conditions_of (map (λ f. condition_of (L.tables lookups.now) (formula_view f) (scope_view scope.now)) formulas.now.items))) }
{
    let mut conditions = Vec::new(alloc);
    let made = add_conditions(alloc, lookups, formulas, &*scope, &mut conditions);
    made.and(Ok(if all {
        Condition::And(conditions)
    } else {
        Condition::Or(conditions)
    }))
}

/// Puts the conditions of formulas behind others.
///
/// Fails where memory for them is refused.
#[cycle(conditions)]
fn add_conditions<'f, 'b, A: Allocator, B: Allocator, L: Lookups<A, B>>(
    alloc: &'b B,
    lookups: &L,
    formulas: &'f Vec<Formula<A>, A>,
    scope: &'f Scope<'f>,
    conditions: &mut Vec<Condition<&'b B>, &'b B>,
) -> Result<(), AllocError>
    ensures { OnOk result (map condition_view conditions.new.items ≡ map condition_view conditions.old.items ++ map (λ f. condition_of (L.tables lookups.now) (formula_view f) (scope_view scope.now)) formulas.now.items) }
{
    for formula in formulas {
        push_made(
            conditions,
            compile_condition(alloc, lookups, formula, &*scope),
        )?;
    }
    Ok(())
}
