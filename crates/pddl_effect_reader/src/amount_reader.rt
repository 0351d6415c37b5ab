//! Amounts of increases read from items.

ghost use Rattle.std.specs.Prelude.{◌≡◌, ℕ, [], IfOk, MatchOption, option_map, option_and_then};
ghost use Rattle.pddl_build.specs.Results.{map_found, both_of};
ghost use Rattle.pddl_items.specs.ItemTrees.{item_tree, item_trees};
ghost use Rattle.pddl_items.specs.Inner.TreeReading.{name_at};
ghost use Rattle.pddl_token.specs.TreeWords.{SpellsNumber};
ghost use Rattle.pddl_formula_reader.specs.Inner.Reading.{term_at};
ghost use Rattle.pddl_effect.specs.Effects.{FunctionTermValue, AmountValue, function_term_view, amount_view, IsFunctionTerm, IsAmount};
ghost use Rattle.pddl_effect.specs.StaticNames.{static_function_of};
ghost use Rattle.pddl_effect_reader.specs.Inner.EffectReading.{call_of_list, static_term, function_term_at, number_at, amount_at};

use pddl_build::both;
use pddl_effect::{Amount, FunctionTerm, StaticFunction};
use pddl_formula::Term;
use pddl_formula_reader::terms_of;
use pddl_items::{Item, name_of};
use pddl_token::{Fixed, TokenKind, value_of};
use std::alloc::{AllocError, Allocator};

/// The number that an item spells, or `None` where it spells none, or one that is out of range (the range is own).
pub fn number_of<A: Allocator>(item: &Item<'_, A>) -> Option<Fixed>
    ensures spelled { MatchOption result ((n : ℕ) → SpellsNumber n (item_tree item.now) → ⊥) (λ n. SpellsNumber n (item_tree item.now)) }
    ensures read { result ≡ number_at (item_tree item.now) }
{
    item_number(item)
}

fn item_number<A: Allocator>(item: &Item<'_, A>) -> Option<Fixed>
    ensures { result ≡ number_at (item_tree item.now) }
{
    match item {
        Item::Word(token) => match token.kind {
            TokenKind::Number => value_of(token.text),
            _ => None,
        },
        Item::List(_, _) => None,
    }
}

/// The amount that an item spells, or `None` where it spells none: a number, or a function other than `total-cost` of
/// terms, in parentheses, or bare where it has no argument (Kovacs, `<f-exp>` under `:action-costs`).
///
/// Fails where memory for the amount is refused.
pub fn amount_of<'a, B: Allocator>(
    alloc: &'a B,
    item: &Item<'_, &'a B>,
) -> Result<Option<Amount<&'a B>>, AllocError>
    ensures spelled { IfOk result (λ found. MatchOption found ((a : AmountValue) → IsAmount a (item_tree item.now) → ⊥) (λ amount. IsAmount (amount_view amount) (item_tree item.now))) }
    ensures read { IfOk result (λ found. option_map amount_view found ≡ amount_at (item_tree item.now)) }
{
    item_amount(alloc, item)
}

fn item_amount<'a, B: Allocator>(
    alloc: &'a B,
    item: &Item<'_, &'a B>,
) -> Result<Option<Amount<&'a B>>, AllocError>
    ensures { IfOk result (λ found. option_map amount_view found ≡ amount_at (item_tree item.now)) }
{
    if let Some(number) = item_number(item) {
        return Ok(Some(Amount::Number(number)));
    }
    let Some(term) = item_function_term(alloc, item)? else {
        return Ok(None);
    };
    Ok(Some(Amount::Function(term)))
}

/// The function term that an item spells, or `None` where it spells none: a function other than `total-cost` of terms, in
/// parentheses, or bare where it has no argument (Kovacs, `<f-head>`).
///
/// Fails where memory for the function term is refused.
pub fn function_term_of<'a, B: Allocator>(
    alloc: &'a B,
    item: &Item<'_, &'a B>,
) -> Result<Option<FunctionTerm<&'a B>>, AllocError>
    ensures spelled { IfOk result (λ found. MatchOption found ((f : FunctionTermValue) → IsFunctionTerm f (item_tree item.now) → ⊥) (λ term. IsFunctionTerm (function_term_view term) (item_tree item.now))) }
    ensures read { IfOk result (λ found. option_map function_term_view found ≡ function_term_at (item_tree item.now)) }
{
    item_function_term(alloc, item)
}

fn item_function_term<'a, B: Allocator>(
    alloc: &'a B,
    item: &Item<'_, &'a B>,
) -> Result<Option<FunctionTerm<&'a B>>, AllocError>
    ensures { IfOk result (λ found. option_map function_term_view found ≡ function_term_at (item_tree item.now)) }
{
    match item {
        Item::List(items, _) => list_function_term(alloc, items),
        Item::Word(_) => bare_function(alloc, item),
    }
}

/// The function whose name an item is.
fn static_function_of<'a, B: Allocator>(
    alloc: &'a B,
    item: &Item<'_, &'a B>,
) -> Result<Option<StaticFunction<&'a B>>, AllocError>
    ensures { IfOk result (λ found. found ≡ option_and_then static_function_of (name_at (item_tree item.now))) }
{
    let Some(name) = name_of(alloc, item)? else {
        return Ok(None);
    };
    Ok(StaticFunction::new(name))
}

/// The function whose bare name an item is.
fn bare_function<'a, B: Allocator>(
    alloc: &'a B,
    item: &Item<'_, &'a B>,
) -> Result<Option<FunctionTerm<&'a B>>, AllocError>
    ensures { IfOk result (λ found. option_map function_term_view found ≡ option_and_then static_term (option_map (λ f. (f, [])) (name_at (item_tree item.now)))) }
{
    let Some(function) = static_function_of(alloc, item)? else {
        return Ok(None);
    };
    let terms = Vec::new(alloc);
    Ok(Some(FunctionTerm { function, terms }))
}

/// The function term of a list of these items.
fn list_function_term<'a, B: Allocator>(
    alloc: &'a B,
    items: &[Item<'_, &'a B>],
) -> Result<Option<FunctionTerm<&'a B>>, AllocError>
    ensures { IfOk result (λ found. option_map function_term_view found ≡ option_and_then static_term (call_of_list term_at (item_trees items.now))) }
{
    let [head, terms @ ..] = items else {
        return Ok(None);
    };
    function_term(static_function_of(alloc, head), terms_of(alloc, terms))
}

/// A function and its arguments, if both were read.
fn function_term<A: Allocator>(
    function: Result<Option<StaticFunction<A>>, AllocError>,
    terms: Result<Option<Vec<Term<A>, A>>, AllocError>,
) -> Result<Option<FunctionTerm<A>>, AllocError>
    ensures { result ≡ map_found (λ p. record { function = p.0; terms = p.1 }) (both_of function terms) }
{
    let Some((function, terms)) = both(function, terms)? else {
        return Ok(None);
    };
    Ok(Some(FunctionTerm { function, terms }))
}
