//! Actions read from items.

ghost use Rattle.std.specs.Prelude.{◌≡◌, [], IfOk, map, option_map};
ghost use Rattle.std.specs.Bool.{then_some};
ghost use Rattle.pddl_items.specs.ItemTrees.{item_tree, item_trees};
ghost use Rattle.pddl_formula.specs.TypedLists.{typed_view};
ghost use Rattle.pddl_formula.specs.Formulas.{conjunction, no_formulas, formula_view};
ghost use Rattle.pddl_effect.specs.Effects.{conjunction as all_effects, no_effects, effect_view};
ghost use Rattle.pddl_formula_reader.specs.Inner.Reading.{variables_at, condition_at};
ghost use Rattle.pddl_effect_reader.specs.Inner.EffectReading.{whole_effect_at};
ghost use Rattle.pddl_domain.specs.Actions.{parameters, precondition, effect, action_view};
ghost use Rattle.pddl_declaration_reader.specs.Inner.ActionReading.{field_at, action_of};
ghost use Rattle.pddl_declaration_reader.specs.Inner.Slots.{slots_view, no_slots, slots_from, AddsField, given_or, action_by};

use pddl_build::{both, fill_found, if_right};
use pddl_domain::Action;
use pddl_effect::Effect;
use pddl_effect_reader::whole_effect_of;
use pddl_formula::{Formula, TypedList};
use pddl_formula_reader::{condition_of, variables_of};
use pddl_items::{Item, is_keyword_item, name_of};
use pddl_token::Name;
use std::alloc::{AllocError, Allocator};

/// The fields of an action that stood so far.
#[derive(Drop)]
struct Slots<A: Allocator> {
    parameters: Option<TypedList<A>>,
    precondition: Option<Formula<A>>,
    effect: Option<Effect<A>>,
}

/// No field stood.
fn no_slots<A: Allocator>() -> Slots<A>
    ensures { slots_view result ≡ no_slots }
{
    Slots {
        parameters: None,
        precondition: None,
        effect: None,
    }
}

/// Adds the parameters that an item is.
fn add_parameters<'a, B: Allocator>(
    alloc: &'a B,
    slots: &mut Slots<&'a B>,
    item: &Item<'_, &'a B>,
) -> Result<bool, AllocError>
    ensures { IfOk result (AddsField (option_map parameters (variables_at (item_tree item.now))) (slots_view slots.old) (slots_view slots.new)) }
{
    fill_found(&mut slots.parameters, variables_of(alloc, item))
}

/// Adds the precondition that an item is.
fn add_precondition<'a, B: Allocator>(
    alloc: &'a B,
    slots: &mut Slots<&'a B>,
    item: &Item<'_, &'a B>,
) -> Result<bool, AllocError>
    ensures { IfOk result (AddsField (option_map precondition (condition_at (item_tree item.now))) (slots_view slots.old) (slots_view slots.new)) }
{
    fill_found(&mut slots.precondition, condition_of(alloc, item))
}

/// Adds the effect that an item is.
fn add_effect<'a, B: Allocator>(
    alloc: &'a B,
    slots: &mut Slots<&'a B>,
    item: &Item<'_, &'a B>,
) -> Result<bool, AllocError>
    ensures { IfOk result (AddsField (option_map effect (whole_effect_at (item_tree item.now))) (slots_view slots.old) (slots_view slots.new)) }
{
    fill_found(&mut slots.effect, whole_effect_of(alloc, item))
}

/// Adds the field that a keyword and the item behind it are; true exactly where they are one that did not stand before.
fn add_field<'a, B: Allocator>(
    alloc: &'a B,
    slots: &mut Slots<&'a B>,
    keyword: &Item<'_, &'a B>,
    item: &Item<'_, &'a B>,
) -> Result<bool, AllocError>
    ensures { IfOk result (AddsField (field_at (item_tree keyword.now) (item_tree item.now)) (slots_view slots.old) (slots_view slots.new)) }
{
    if is_keyword_item(keyword, b":parameters") {
        add_parameters(alloc, slots, item)
    } else if is_keyword_item(keyword, b":precondition") {
        add_precondition(alloc, slots, item)
    } else if is_keyword_item(keyword, b":effect") {
        add_effect(alloc, slots, item)
    } else {
        Ok(false)
    }
}

/// Adds the fields that some items are, two items each; true exactly where they are fields, none of which stood before.
fn add_fields<'a, B: Allocator>(
    alloc: &'a B,
    slots: &mut Slots<&'a B>,
    items: &[Item<'_, &'a B>],
) -> Result<bool, AllocError>
    ensures { IfOk result (λ right. then_some right (slots_view slots.new) ≡ slots_from (slots_view slots.old) (item_trees items.now)) }
{
    let mut rest = items;
    while let [keyword, item, others @ ..] = rest {
        if !add_field(alloc, slots, keyword, item)? {
            return Ok(false);
        }
        rest = others;
    }
    Ok(rest.is_empty())
}

/// The fields that some items are, two items each.
fn slots_of<'a, B: Allocator>(
    alloc: &'a B,
    items: &[Item<'_, &'a B>],
) -> Result<Option<Slots<&'a B>>, AllocError>
    ensures { IfOk result (λ found. option_map slots_view found ≡ slots_from no_slots (item_trees items.now)) }
{
    let mut slots = no_slots();
    let right = add_fields(alloc, &mut slots, items);
    if_right(slots, right)
}

/// These parameters, or none.
fn list_or_none<'a, B: Allocator>(alloc: &'a B, list: Option<TypedList<&'a B>>) -> TypedList<&'a B>
    ensures { map typed_view result.items ≡ given_or [] (option_map (λ v. map typed_view v.items) list.entry) }
{
    match list {
        Some(list) => list,
        None => TypedList::new(alloc),
    }
}

/// This precondition, or the empty conjunction.
fn condition_or_none<'a, B: Allocator>(
    alloc: &'a B,
    condition: Option<Formula<&'a B>>,
) -> Formula<&'a B>
    ensures { formula_view result ≡ given_or (conjunction no_formulas) (option_map formula_view condition.entry) }
{
    match condition {
        Some(condition) => condition,
        None => Formula::And(Vec::new(alloc)),
    }
}

/// This effect, or the empty conjunction.
fn effect_or_none<'a, B: Allocator>(alloc: &'a B, effect: Option<Effect<&'a B>>) -> Effect<&'a B>
    ensures { effect_view result ≡ given_or (all_effects no_effects) (option_map effect_view effect.entry) }
{
    match effect {
        Some(effect) => effect,
        None => Effect::And(Vec::new(alloc)),
    }
}

/// The action of this name and these fields.
fn action_by<'a, B: Allocator>(
    alloc: &'a B,
    name: Name<&'a B>,
    slots: Slots<&'a B>,
) -> Action<&'a B>
    ensures { action_view result ≡ action_by name.entry (slots_view slots.entry) }
{
    Action {
        name,
        parameters: list_or_none(alloc, slots.parameters),
        precondition: condition_or_none(alloc, slots.precondition),
        effect: effect_or_none(alloc, slots.effect),
    }
}

/// The action that the items behind `:action` spell, or `None` where they spell none: a name and fields, each at most once,
/// in any order; parameters that are not given are none, and a precondition or an effect is then the empty conjunction
/// (Kovacs, `<action-def>`; that the fields stand in any order is own).
///
/// Fails where memory for the action is refused.
pub fn action_of<'a, B: Allocator>(
    alloc: &'a B,
    items: &[Item<'_, &'a B>],
) -> Result<Option<Action<&'a B>>, AllocError>
    ensures { IfOk result (λ found. option_map action_view found ≡ action_of (item_trees items.now)) }
{
    let [title, rest @ ..] = items else {
        return Ok(None);
    };
    match both(name_of(alloc, title), slots_of(alloc, rest))? {
        Some((name, slots)) => Ok(Some(action_by(alloc, name, slots))),
        None => Ok(None),
    }
}
