//! Formulas read from items.

ghost use Rattle.std.specs.Prelude.{◌≡◌, [], Option, Some, IfOk, cond, map, option_map};
ghost use Rattle.std.specs.Option.{option_zip};
ghost use Rattle.pddl_items.specs.ItemTrees.{item_tree, item_trees};
ghost use Rattle.pddl_items.specs.Inner.TreeReading.{all_of};
ghost use Rattle.pddl_build.specs.Results.{map_found, both_of, Pushed};
ghost use Rattle.pddl_formula.specs.declared.formula.Formula.TheVariants as cases;
ghost use Rattle.pddl_formula.specs.Formulas.{FormulaValue, formula_view, negation, implication};
ghost use Rattle.pddl_formula_reader.specs.Inner.Reading.{variables_at, behind, only, two, quantified, binding, quantifying, equality_of, formula_of_list, formula_at, condition_at};

use crate::head::{Head, head_of};
use crate::term_reader::{atom_of_list, term_of};
use crate::typed_reader::variables_of;
use pddl_build::{both, both_in_boxes, boxed, pushed};
use pddl_formula::{Atom, Formula, Term, TypedList};
use pddl_items::Item;
use std::alloc::{AllocError, Allocator};

/// How variables are bound.
#[derive(Clone, Copy)]
enum Quantifier {
    Exists,
    Forall,
}

/// The formula that an item spells, or `None` where it spells none (Kovacs, `<GD>` without preferences and comparisons;
/// that reserved words name no predicate is own).
///
/// Fails where memory for the formula is refused.
#[cycle(formula)]
pub fn formula_of<'a, B: Allocator>(
    alloc: &'a B,
    item: &Item<'_, &'a B>,
) -> Result<Option<Formula<&'a B>>, AllocError>
    ensures { IfOk result (λ formula. option_map formula_view formula ≡ formula_at (item_tree item.now)) }
{
    match item {
        Item::List(items, _) => list_formula_of(alloc, items),
        Item::Word(_) => Ok(None),
    }
}

/// The formula of a list of these items.
#[cycle(formula)]
fn list_formula_of<'a, B: Allocator>(
    alloc: &'a B,
    items: &[Item<'_, &'a B>],
) -> Result<Option<Formula<&'a B>>, AllocError>
    ensures { IfOk result (λ formula. option_map formula_view formula ≡ formula_of_list (item_trees items.now) (map formula_at (item_trees items.now))) }
{
    match items {
        [] => Ok(None),
        [head, rest @ ..] => match head_of(head) {
            Head::And => junction(true, formulas_of(alloc, items)),
            Head::Or => junction(false, formulas_of(alloc, items)),
            Head::Not => negation_of(alloc, items),
            Head::Imply => implication_of(alloc, items),
            Head::Exists => quantified_of(alloc, Quantifier::Exists, items),
            Head::Forall => quantified_of(alloc, Quantifier::Forall, items),
            Head::Name => atomic(atom_of_list(alloc, items)),
            Head::Equal => equality_of(alloc, rest),
            Head::When | Head::Increase | Head::Nothing => Ok(None),
        },
    }
}

/// The formulas behind the head of a list, each of them.
#[cycle(formula)]
fn formulas_of<'a, B: Allocator>(
    alloc: &'a B,
    items: &[Item<'_, &'a B>],
) -> Result<Option<Vec<Formula<&'a B>, &'a B>>, AllocError>
    ensures { IfOk result (λ formulas. option_map (λ v. map formula_view v.items) formulas ≡ all_of (behind (map formula_at (item_trees items.now)))) }
{
    let mut formulas = no_formulas(alloc, items.len());
    for index in 1..items.len() {
        if !matches!(formulas, Ok(Some(_))) {
            break;
        }
        formulas = push_formula(formulas, formula_of(alloc, &items[index]));
    }
    formulas
}

#[cycle(formula)]
fn negation_of<'a, B: Allocator>(
    alloc: &'a B,
    items: &[Item<'_, &'a B>],
) -> Result<Option<Formula<&'a B>>, AllocError>
    ensures { IfOk result (λ formula. option_map formula_view formula ≡ option_map negation (only (behind (map formula_at (item_trees items.now))))) }
{
    let [_, item] = items else {
        return Ok(None);
    };
    negated(alloc, formula_of(alloc, item))
}

#[cycle(formula)]
fn implication_of<'a, B: Allocator>(
    alloc: &'a B,
    items: &[Item<'_, &'a B>],
) -> Result<Option<Formula<&'a B>>, AllocError>
    ensures { IfOk result (λ formula. option_map formula_view formula ≡ option_map (λ p. implication p.0 p.1) (two (behind (map formula_at (item_trees items.now))))) }
{
    let [_, left, right] = items else {
        return Ok(None);
    };
    implied(alloc, formula_of(alloc, left), formula_of(alloc, right))
}

/// The formula of a list of three: its head, variables, and the formula that they are bound in.
#[cycle(formula)]
fn quantified_of<'a, B: Allocator>(
    alloc: &'a B,
    quantifier: Quantifier,
    items: &[Item<'_, &'a B>],
) -> Result<Option<Formula<&'a B>>, AllocError>
    ensures { IfOk result (λ formula. option_map formula_view formula ≡ quantified (quantifying quantifier) (behind (item_trees items.now)) (behind (map formula_at (item_trees items.now)))) }
{
    let [_, variables, body] = items else {
        return Ok(None);
    };
    quantified(alloc, quantifier, variables, formula_of(alloc, body))
}

/// An empty list with room for so many formulas.
fn no_formulas<'a, B: Allocator>(
    alloc: &'a B,
    capacity: usize,
) -> Result<Option<Vec<Formula<&'a B>, &'a B>>, AllocError>
    ensures { IfOk result (λ found. option_map (λ v. v.items) found ≡ Some []) }
{
    Ok(Some(Vec::with_capacity(alloc, capacity)?))
}

/// The formulas with one behind them, or `None` where one of them is missing.
///
/// Fails as the formulas failed; where there are some, as the one behind them did, and where memory for the list is refused.
fn push_formula<'a, B: Allocator>(
    formulas: Result<Option<Vec<Formula<&'a B>, &'a B>>, AllocError>,
    formula: Result<Option<Formula<&'a B>>, AllocError>,
) -> Result<Option<Vec<Formula<&'a B>, &'a B>>, AllocError>
    ensures { Pushed formulas.entry formula.entry result }
{
    pushed(formulas, formula)
}

fn negated<'a, B: Allocator>(
    alloc: &'a B,
    formula: Result<Option<Formula<&'a B>>, AllocError>,
) -> Result<Option<Formula<&'a B>>, AllocError>
    ensures { (f : Option FormulaValue) → IfOk formula.entry (λ found. option_map formula_view found ≡ f) → IfOk result (λ found. option_map formula_view found ≡ option_map negation f) }
{
    negation(boxed(alloc, formula))
}

fn implied<'a, B: Allocator>(
    alloc: &'a B,
    left: Result<Option<Formula<&'a B>>, AllocError>,
    right: Result<Option<Formula<&'a B>>, AllocError>,
) -> Result<Option<Formula<&'a B>>, AllocError>
    ensures { (f g : Option FormulaValue) → IfOk left.entry (λ found. option_map formula_view found ≡ f) → IfOk right.entry (λ found. option_map formula_view found ≡ g)
        → IfOk result (λ found. option_map formula_view found ≡ option_map (λ p. implication p.0 p.1) (option_zip f g)) }
{
    implication(both_in_boxes(alloc, left, right))
}

/// The formula of the variables that this item spells, and of the formula that they are bound in.
fn quantified<'a, B: Allocator>(
    alloc: &'a B,
    quantifier: Quantifier,
    variables: &Item<'_, &'a B>,
    body: Result<Option<Formula<&'a B>>, AllocError>,
) -> Result<Option<Formula<&'a B>>, AllocError>
    ensures { (f : Option FormulaValue) → IfOk body.entry (λ found. option_map formula_view found ≡ f)
        → IfOk result (λ found. option_map formula_view found ≡ option_map (λ b. quantifying quantifier b.0 b.1) (option_zip (variables_at (item_tree variables.now)) f)) }
{
    bound(
        quantifier,
        variables_of(alloc, variables),
        boxed(alloc, body),
    )
}

/// The formula of variables, and of the formula that they are bound in, if both were read.
fn bound<A: Allocator>(
    quantifier: Quantifier,
    variables: Result<Option<TypedList<A>>, AllocError>,
    body: Result<Option<Box<Formula<A>, A>>, AllocError>,
) -> Result<Option<Formula<A>>, AllocError>
    ensures { result ≡ map_found (binding quantifier) (both_of variables body) }
{
    let Some((variables, body)) = both(variables, body)? else {
        return Ok(None);
    };
    Ok(Some(match quantifier {
        Quantifier::Exists => Formula::Exists(variables, body),
        Quantifier::Forall => Formula::Forall(variables, body),
    }))
}

/// The formula that all of some formulas hold, or else that one of them does.
fn junction<A: Allocator>(
    all: bool,
    formulas: Result<Option<Vec<Formula<A>, A>>, AllocError>,
) -> Result<Option<Formula<A>>, AllocError>
    ensures { result ≡ map_found (cond all cases.And cases.Or) formulas }
{
    let Some(formulas) = formulas? else {
        return Ok(None);
    };
    Ok(Some(if all {
        Formula::And(formulas)
    } else {
        Formula::Or(formulas)
    }))
}

fn negation<A: Allocator>(
    formula: Result<Option<Box<Formula<A>, A>>, AllocError>,
) -> Result<Option<Formula<A>>, AllocError>
    ensures { result ≡ map_found cases.Not formula }
{
    let Some(formula) = formula? else {
        return Ok(None);
    };
    Ok(Some(Formula::Not(formula)))
}

fn implication<A: Allocator>(
    sides: Result<Option<(Box<Formula<A>, A>, Box<Formula<A>, A>)>, AllocError>,
) -> Result<Option<Formula<A>>, AllocError>
    ensures { result ≡ map_found (λ p. cases.Imply p.0 p.1) sides }
{
    let Some((left, right)) = sides? else {
        return Ok(None);
    };
    Ok(Some(Formula::Imply(left, right)))
}

fn atomic<A: Allocator>(
    atom: Result<Option<Atom<A>>, AllocError>,
) -> Result<Option<Formula<A>>, AllocError>
    ensures { result ≡ map_found cases.Atom atom }
{
    let Some(atom) = atom? else {
        return Ok(None);
    };
    Ok(Some(Formula::Atom(atom)))
}

fn equality<A: Allocator>(
    terms: Result<Option<(Term<A>, Term<A>)>, AllocError>,
) -> Result<Option<Formula<A>>, AllocError>
    ensures { result ≡ map_found (λ p. cases.Equal p.0 p.1) terms }
{
    let Some((left, right)) = terms? else {
        return Ok(None);
    };
    Ok(Some(Formula::Equal(left, right)))
}

/// The equality of two terms.
fn equality_of<'a, B: Allocator>(
    alloc: &'a B,
    items: &[Item<'_, &'a B>],
) -> Result<Option<Formula<&'a B>>, AllocError>
    ensures { IfOk result (λ formula. option_map formula_view formula ≡ equality_of (item_trees items.now)) }
{
    let [left, right] = items else {
        return Ok(None);
    };
    equality(both(term_of(alloc, left), term_of(alloc, right)))
}

/// The condition that an item spells, or `None` where it spells none: a formula, or `()`, which is the empty conjunction
/// (Kovacs, `<emptyOr (x)>`; that they are one value is own). Preconditions and goals are conditions.
///
/// Fails where memory for the formula is refused.
pub fn condition_of<'a, B: Allocator>(
    alloc: &'a B,
    item: &Item<'_, &'a B>,
) -> Result<Option<Formula<&'a B>>, AllocError>
    ensures { IfOk result (λ formula. option_map formula_view formula ≡ condition_at (item_tree item.now)) }
{
    match item {
        Item::List(items, _) => {
            if items.len() == 0 {
                Ok(Some(Formula::And(Vec::new(alloc))))
            } else {
                formula_of(alloc, item)
            }
        }
        Item::Word(_) => Ok(None),
    }
}
