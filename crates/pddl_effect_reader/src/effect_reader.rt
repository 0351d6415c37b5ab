//! Effects read from items.

ghost use Rattle.std.specs.Prelude.{◌≡◌, [], Option, Some, IfOk, MatchOption, map, option_map};
ghost use Rattle.pddl_token.specs.Trees.{Tree};
ghost use Rattle.pddl_items.specs.ItemTrees.{item_tree, item_trees};
ghost use Rattle.pddl_items.specs.Inner.TreeReading.{all_of};
ghost use Rattle.pddl_build.specs.Results.{map_found, both_of, Pushed};
ghost use Rattle.pddl_formula_reader.specs.Inner.Reading.{atom_at, behind, only};
ghost use Rattle.pddl_effect.specs.declared.effect.Effect.TheVariants as cases;
ghost use Rattle.pddl_effect.specs.Effects.{EffectValue, deletion, increase, effect_view, IsEffect, IsWholeEffect};
ghost use Rattle.pddl_effect_reader.specs.Inner.EffectReading.{increase_of, plain_of, scoped_by, scoped_of, effect_of_list, effect_at, whole_effect_at};

use crate::amount_reader::amount_of;
use crate::increase::is_total_cost;
use pddl_build::{both, boxed, pushed};
use pddl_effect::{Amount, Effect};
use pddl_formula::{Atom, Formula, TypedList};
use pddl_formula_reader::{Head, atom_of, atom_of_list, formula_of, head_of, variables_of};
use pddl_items::Item;
use std::alloc::{AllocError, Allocator};

/// What an effect stands under.
#[derive(Clone, Copy)]
enum Scope {
    Variables,
    Condition,
}

/// The effect that an item spells, or `None` where it spells none (Kovacs, `<effect>` with `:conditional-effects` and
/// `:action-costs`; that effects nest freely, and that reserved words name no predicate, is own).
///
/// Fails where memory for the effect is refused.
pub fn effect_of<'a, B: Allocator>(
    alloc: &'a B,
    item: &Item<'_, &'a B>,
) -> Result<Option<Effect<&'a B>>, AllocError>
    ensures spelled { IfOk result (λ found. MatchOption found ((e : EffectValue) → IsEffect e (item_tree item.now) → ⊥) (λ effect. IsEffect (effect_view effect) (item_tree item.now))) }
    ensures read { IfOk result (λ found. option_map effect_view found ≡ effect_at (item_tree item.now)) }
{
    item_effect(alloc, item)
}

/// The effect that an item spells, or `None` where it spells none: an effect, or `()`, which is the empty conjunction
/// (Kovacs, `<emptyOr (x)>`; that they are one value is own). An action's effect is read so.
///
/// Fails where memory for the effect is refused.
pub fn whole_effect_of<'a, B: Allocator>(
    alloc: &'a B,
    item: &Item<'_, &'a B>,
) -> Result<Option<Effect<&'a B>>, AllocError>
    ensures spelled { IfOk result (λ found. MatchOption found ((e : EffectValue) → IsWholeEffect e (item_tree item.now) → ⊥) (λ effect. IsWholeEffect (effect_view effect) (item_tree item.now))) }
    ensures read { IfOk result (λ found. option_map effect_view found ≡ whole_effect_at (item_tree item.now)) }
{
    item_whole_effect(alloc, item)
}

/// At most one effect is spelled by a tree.
pub fn one_effect()
    ensures { (t : Tree) (e f : EffectValue) → IsEffect e t → IsEffect f t → e ≡ f }
{}

fn item_whole_effect<'a, B: Allocator>(
    alloc: &'a B,
    item: &Item<'_, &'a B>,
) -> Result<Option<Effect<&'a B>>, AllocError>
    ensures { IfOk result (λ found. option_map effect_view found ≡ whole_effect_at (item_tree item.now)) }
{
    match item {
        Item::List(items, _) => {
            if items.len() == 0 {
                Ok(Some(Effect::And(Vec::new(alloc))))
            } else {
                item_effect(alloc, item)
            }
        }
        Item::Word(_) => Ok(None),
    }
}

#[cycle(effect)]
fn item_effect<'a, B: Allocator>(
    alloc: &'a B,
    item: &Item<'_, &'a B>,
) -> Result<Option<Effect<&'a B>>, AllocError>
    ensures { IfOk result (λ found. option_map effect_view found ≡ effect_at (item_tree item.now)) }
{
    match item {
        Item::List(items, _) => list_effect(alloc, items),
        Item::Word(_) => Ok(None),
    }
}

/// The effect of a list of these items.
#[cycle(effect)]
fn list_effect<'a, B: Allocator>(
    alloc: &'a B,
    items: &[Item<'_, &'a B>],
) -> Result<Option<Effect<&'a B>>, AllocError>
    ensures { IfOk result (λ found. option_map effect_view found ≡ effect_of_list (item_trees items.now) (map effect_at (item_trees items.now))) }
{
    let [head, ..] = items else {
        return Ok(None);
    };
    match head_of(head) {
        Head::And => conjunction(effects_of(alloc, items)),
        Head::Forall => scoped_of(alloc, Scope::Variables, items),
        Head::When => scoped_of(alloc, Scope::Condition, items),
        head => plain_of(alloc, head, items),
    }
}

/// The effects behind the head of a list, each of them.
#[cycle(effect)]
fn effects_of<'a, B: Allocator>(
    alloc: &'a B,
    items: &[Item<'_, &'a B>],
) -> Result<Option<Vec<Effect<&'a B>, &'a B>>, AllocError>
    ensures { IfOk result (λ found. option_map (λ v. map effect_view v.items) found ≡ all_of (behind (map effect_at (item_trees items.now)))) }
{
    let mut effects = no_effects(alloc, items.len());
    for index in 1..items.len() {
        if !matches!(effects, Ok(Some(_))) {
            break;
        }
        effects = push_effect(effects, item_effect(alloc, &items[index]));
    }
    effects
}

/// The effect of a list of three: its head, what the effect behind stands under, and that effect.
#[cycle(effect)]
fn scoped_of<'a, B: Allocator>(
    alloc: &'a B,
    scope: Scope,
    items: &[Item<'_, &'a B>],
) -> Result<Option<Effect<&'a B>>, AllocError>
    ensures { IfOk result (λ found. option_map effect_view found ≡ scoped_of scope (behind (item_trees items.now)) (behind (map effect_at (item_trees items.now)))) }
{
    let [_, item, body] = items else {
        return Ok(None);
    };
    scoped(alloc, scope, item, item_effect(alloc, body))
}

/// An empty list with room for so many effects.
fn no_effects<'a, B: Allocator>(
    alloc: &'a B,
    capacity: usize,
) -> Result<Option<Vec<Effect<&'a B>, &'a B>>, AllocError>
    ensures { IfOk result (λ found. option_map (λ v. v.items) found ≡ Some []) }
{
    Ok(Some(Vec::with_capacity(alloc, capacity)?))
}

/// The effects with one behind them, or `None` where one of them is missing.
///
/// Fails as the effects failed; where there are some, as the one behind them did, and where memory for the list is refused.
fn push_effect<'a, B: Allocator>(
    effects: Result<Option<Vec<Effect<&'a B>, &'a B>>, AllocError>,
    effect: Result<Option<Effect<&'a B>>, AllocError>,
) -> Result<Option<Vec<Effect<&'a B>, &'a B>>, AllocError>
    ensures { Pushed effects.entry effect.entry result }
{
    pushed(effects, effect)
}

/// The effect under what this item spells.
fn scoped<'a, B: Allocator>(
    alloc: &'a B,
    scope: Scope,
    item: &Item<'_, &'a B>,
    body: Result<Option<Effect<&'a B>>, AllocError>,
) -> Result<Option<Effect<&'a B>>, AllocError>
    ensures { (e : Option EffectValue) → IfOk body.entry (λ found. option_map effect_view found ≡ e) → IfOk result (λ found. option_map effect_view found ≡ scoped_by scope (item_tree item.now) e) }
{
    let body = boxed(alloc, body);
    match scope {
        Scope::Variables => universal(variables_of(alloc, item), body),
        Scope::Condition => conditional(formula_of(alloc, item), body),
    }
}

/// The effect of a list of these items that holds no effect, with this head.
fn plain_of<'a, B: Allocator>(
    alloc: &'a B,
    head: Head,
    items: &[Item<'_, &'a B>],
) -> Result<Option<Effect<&'a B>>, AllocError>
    ensures { IfOk result (λ found. option_map effect_view found ≡ plain_of head (item_trees items.now)) }
{
    let [_, rest @ ..] = items else {
        return Ok(None);
    };
    match head {
        Head::Not => deletion_of(alloc, rest),
        Head::Name => addition(atom_of_list(alloc, items)),
        Head::Increase => increase_of(alloc, rest),
        _ => Ok(None),
    }
}

/// The deletion of the one atom that these items spell.
fn deletion_of<'a, B: Allocator>(
    alloc: &'a B,
    items: &[Item<'_, &'a B>],
) -> Result<Option<Effect<&'a B>>, AllocError>
    ensures { IfOk result (λ found. option_map effect_view found ≡ option_map deletion (only (map atom_at (item_trees items.now)))) }
{
    let [item] = items else {
        return Ok(None);
    };
    deletion(atom_of(alloc, item))
}

/// The increase of the total cost by the amount behind it.
fn increase_of<'a, B: Allocator>(
    alloc: &'a B,
    items: &[Item<'_, &'a B>],
) -> Result<Option<Effect<&'a B>>, AllocError>
    ensures { IfOk result (λ found. option_map effect_view found ≡ option_map increase (increase_of (item_trees items.now))) }
{
    let [cost, amount] = items else {
        return Ok(None);
    };
    if !is_total_cost(cost) {
        return Ok(None);
    }
    increase(amount_of(alloc, amount))
}

fn conjunction<A: Allocator>(
    effects: Result<Option<Vec<Effect<A>, A>>, AllocError>,
) -> Result<Option<Effect<A>>, AllocError>
    ensures { result ≡ map_found cases.And effects }
{
    let Some(effects) = effects? else {
        return Ok(None);
    };
    Ok(Some(Effect::And(effects)))
}

fn universal<A: Allocator>(
    variables: Result<Option<TypedList<A>>, AllocError>,
    body: Result<Option<Box<Effect<A>, A>>, AllocError>,
) -> Result<Option<Effect<A>>, AllocError>
    ensures { result ≡ map_found (λ p. cases.Forall p.0 p.1) (both_of variables body) }
{
    let Some((variables, body)) = both(variables, body)? else {
        return Ok(None);
    };
    Ok(Some(Effect::Forall(variables, body)))
}

fn conditional<A: Allocator>(
    condition: Result<Option<Formula<A>>, AllocError>,
    body: Result<Option<Box<Effect<A>, A>>, AllocError>,
) -> Result<Option<Effect<A>>, AllocError>
    ensures { result ≡ map_found (λ p. cases.When p.0 p.1) (both_of condition body) }
{
    let Some((condition, body)) = both(condition, body)? else {
        return Ok(None);
    };
    Ok(Some(Effect::When(condition, body)))
}

fn addition<A: Allocator>(
    atom: Result<Option<Atom<A>>, AllocError>,
) -> Result<Option<Effect<A>>, AllocError>
    ensures { result ≡ map_found cases.Add atom }
{
    let Some(atom) = atom? else {
        return Ok(None);
    };
    Ok(Some(Effect::Add(atom)))
}

fn deletion<A: Allocator>(
    atom: Result<Option<Atom<A>>, AllocError>,
) -> Result<Option<Effect<A>>, AllocError>
    ensures { result ≡ map_found cases.Del atom }
{
    let Some(atom) = atom? else {
        return Ok(None);
    };
    Ok(Some(Effect::Del(atom)))
}

fn increase<A: Allocator>(
    amount: Result<Option<Amount<A>>, AllocError>,
) -> Result<Option<Effect<A>>, AllocError>
    ensures { result ≡ map_found cases.Increase amount }
{
    let Some(amount) = amount? else {
        return Ok(None);
    };
    Ok(Some(Effect::Increase(amount)))
}
