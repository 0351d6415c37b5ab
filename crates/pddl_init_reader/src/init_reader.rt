//! Items of `:init` and metrics read from items.

ghost use Rattle.std.specs.Prelude.{◌≡◌, ◌++◌, [], IfOk, map, option_map};
ghost use Rattle.std.specs.Bool.{then_some};
ghost use Rattle.pddl_items.specs.ItemTrees.{item_tree, item_trees};
ghost use Rattle.pddl_items.specs.Inner.TreeReading.{name_at, all_of};
ghost use Rattle.pddl_formula_reader.specs.Inner.Reading.{only};
ghost use Rattle.pddl_effect_reader.specs.Inner.EffectReading.{call_of_list};
ghost use Rattle.pddl_problem.specs.Inits.{holds, fails, fact_view, function_view, init_view, metric_view};
ghost use Rattle.pddl_init_reader.specs.Inner.InitReading.{fact_of_list, fact_at, ground_call, ground_function_at, value_of, init_of_list, init_at, direction_at, metric_of};

use pddl_build::{both, list_if_right, push_found};
use pddl_effect_reader::number_of;
use pddl_formula_reader::{Head, head_of, names_of, predicate_of};
use pddl_items::{Item, is_word_item, name_of};
use pddl_problem::{Direction, Fact, GroundFunction, InitItem, Metric, ObjectNames};
use std::alloc::{AllocError, Allocator};

/// The names of objects that some items spell, one each, or `None` where one of them spells none.
fn objects_of<'a, B: Allocator>(
    alloc: &'a B,
    items: &[Item<'_, &'a B>],
) -> Result<Option<ObjectNames<&'a B>>, AllocError>
    ensures { IfOk result (λ found. found ≡ all_of (map name_at (item_trees items.now))) }
{
    match names_of(alloc, items)? {
        Some(mut names) => Ok(Some(ObjectNames::of(&mut names)?)),
        None => Ok(None),
    }
}

/// The fact of a list of these items, or `None` where they are none: a predicate and names of objects.
fn fact_of_list<'a, B: Allocator>(
    alloc: &'a B,
    items: &[Item<'_, &'a B>],
) -> Result<Option<Fact<&'a B>>, AllocError>
    ensures { IfOk result (λ found. option_map fact_view found ≡ fact_of_list (item_trees items.now)) }
{
    let [head, objects @ ..] = items else {
        return Ok(None);
    };
    let Some(predicate) = predicate_of(alloc, head)? else {
        return Ok(None);
    };
    let Some(objects) = objects_of(alloc, objects)? else {
        return Ok(None);
    };
    Ok(Some(Fact { predicate, objects }))
}

/// The fact that an item spells, or `None` where it spells none.
fn fact_of<'a, B: Allocator>(
    alloc: &'a B,
    item: &Item<'_, &'a B>,
) -> Result<Option<Fact<&'a B>>, AllocError>
    ensures { IfOk result (λ found. option_map fact_view found ≡ fact_at (item_tree item.now)) }
{
    match item {
        Item::List(items, _) => fact_of_list(alloc, items),
        Item::Word(_) => Ok(None),
    }
}

/// The function and its objects that an item spells, or `None` where it spells none: in parentheses, or bare where it has no
/// object.
fn ground_function_of<'a, B: Allocator>(
    alloc: &'a B,
    item: &Item<'_, &'a B>,
) -> Result<Option<GroundFunction<&'a B>>, AllocError>
    ensures { IfOk result (λ found. option_map function_view found ≡ ground_function_at (item_tree item.now)) }
{
    match item {
        Item::List(items, _) => list_function(alloc, items),
        Item::Word(_) => bare_function(alloc, item),
    }
}

/// The function whose bare name an item is.
fn bare_function<'a, B: Allocator>(
    alloc: &'a B,
    item: &Item<'_, &'a B>,
) -> Result<Option<GroundFunction<&'a B>>, AllocError>
    ensures { IfOk result (λ found. option_map function_view found ≡ option_map ground_call (option_map (λ f. (f, [])) (name_at (item_tree item.now)))) }
{
    let Some(function) = name_of(alloc, item)? else {
        return Ok(None);
    };
    let objects = ObjectNames::none();
    Ok(Some(GroundFunction { function, objects }))
}

/// The function and the objects of a list of these items.
fn list_function<'a, B: Allocator>(
    alloc: &'a B,
    items: &[Item<'_, &'a B>],
) -> Result<Option<GroundFunction<&'a B>>, AllocError>
    ensures { IfOk result (λ found. option_map function_view found ≡ option_map ground_call (call_of_list name_at (item_trees items.now))) }
{
    let [head, objects @ ..] = items else {
        return Ok(None);
    };
    let Some(function) = name_of(alloc, head)? else {
        return Ok(None);
    };
    let Some(objects) = objects_of(alloc, objects)? else {
        return Ok(None);
    };
    Ok(Some(GroundFunction { function, objects }))
}

/// The fact of a list of these items, as one that holds.
fn holding<'a, B: Allocator>(
    alloc: &'a B,
    items: &[Item<'_, &'a B>],
) -> Result<Option<InitItem<&'a B>>, AllocError>
    ensures { IfOk result (λ found. option_map init_view found ≡ option_map holds (fact_of_list (item_trees items.now))) }
{
    let Some(fact) = fact_of_list(alloc, items)? else {
        return Ok(None);
    };
    Ok(Some(InitItem::Holds(fact)))
}

/// The one fact that these items spell, as one that does not hold.
fn failing<'a, B: Allocator>(
    alloc: &'a B,
    items: &[Item<'_, &'a B>],
) -> Result<Option<InitItem<&'a B>>, AllocError>
    ensures { IfOk result (λ found. option_map init_view found ≡ option_map fails (only (map fact_at (item_trees items.now)))) }
{
    let [item] = items else {
        return Ok(None);
    };
    let Some(fact) = fact_of(alloc, item)? else {
        return Ok(None);
    };
    Ok(Some(InitItem::Fails(fact)))
}

/// The function and its value that these items spell.
fn value_of<'a, B: Allocator>(
    alloc: &'a B,
    items: &[Item<'_, &'a B>],
) -> Result<Option<InitItem<&'a B>>, AllocError>
    ensures { IfOk result (λ found. option_map init_view found ≡ value_of (item_trees items.now)) }
{
    let [function, number] = items else {
        return Ok(None);
    };
    match both(ground_function_of(alloc, function), Ok(number_of(number)))? {
        Some((function, number)) => Ok(Some(InitItem::Value(function, number))),
        None => Ok(None),
    }
}

/// The item of `:init` of a list of these items.
fn init_of_list<'a, B: Allocator>(
    alloc: &'a B,
    items: &[Item<'_, &'a B>],
) -> Result<Option<InitItem<&'a B>>, AllocError>
    ensures { IfOk result (λ found. option_map init_view found ≡ init_of_list (item_trees items.now)) }
{
    match items {
        [] => Ok(None),
        [head, rest @ ..] => match head_of(head) {
            Head::Name => holding(alloc, items),
            Head::Not => failing(alloc, rest),
            Head::Equal => value_of(alloc, rest),
            Head::And
            | Head::Or
            | Head::Imply
            | Head::Exists
            | Head::Forall
            | Head::When
            | Head::Increase
            | Head::Nothing => Ok(None),
        },
    }
}

/// What an item of `:init` says, or `None` where it spells nothing that can stand there (Kovacs, `<init-el>` without timed
/// literals; that numbers are those in range is own).
///
/// Fails where memory for it is refused.
fn init_of<'a, B: Allocator>(
    alloc: &'a B,
    item: &Item<'_, &'a B>,
) -> Result<Option<InitItem<&'a B>>, AllocError>
    ensures { IfOk result (λ found. option_map init_view found ≡ init_at (item_tree item.now)) }
{
    match item {
        Item::List(items, _) => init_of_list(alloc, items),
        Item::Word(_) => Ok(None),
    }
}

/// What some items of `:init` say, one each, or `None` where one of them can not stand there.
///
/// Fails where memory for it is refused.
pub fn inits_of<'a, B: Allocator>(
    alloc: &'a B,
    items: &[Item<'_, &'a B>],
) -> Result<Option<Vec<InitItem<&'a B>, &'a B>>, AllocError>
    ensures { IfOk result (λ inits. option_map (λ v. map init_view v.items) inits ≡ all_of (map init_at (item_trees items.now))) }
{
    let mut inits = Vec::with_capacity(alloc, items.len())?;
    let all = add_inits(alloc, &mut inits, items);
    list_if_right(inits, all)
}

/// Adds what some items of `:init` say, one each; true exactly where each of them can stand there.
fn add_inits<'a, B: Allocator>(
    alloc: &'a B,
    inits: &mut Vec<InitItem<&'a B>, &'a B>,
    items: &[Item<'_, &'a B>],
) -> Result<bool, AllocError>
    ensures { IfOk result (λ all. then_some all (map init_view inits.new.items) ≡ option_map (λ more. map init_view inits.old.items ++ more) (all_of (map init_at (item_trees items.now)))) }
{
    for item in items {
        if !push_found(inits, init_of(alloc, item))? {
            return Ok(false);
        }
    }
    Ok(true)
}

/// The direction of a metric that an item is.
fn direction_of<A: Allocator>(item: &Item<'_, A>) -> Option<Direction>
    ensures { result ≡ direction_at (item_tree item.now) }
{
    if is_word_item(item, b"minimize") {
        Some(Direction::Minimize)
    } else if is_word_item(item, b"maximize") {
        Some(Direction::Maximize)
    } else {
        None
    }
}

/// The metric that some items spell, or `None` where they spell none: a direction, and a function of objects (Kovacs,
/// `<metric-spec>` of a function alone).
///
/// Fails where memory for it is refused.
pub fn metric_of<'a, B: Allocator>(
    alloc: &'a B,
    items: &[Item<'_, &'a B>],
) -> Result<Option<Metric<&'a B>>, AllocError>
    ensures { IfOk result (λ found. option_map metric_view found ≡ metric_of (item_trees items.now)) }
{
    let [direction, function] = items else {
        return Ok(None);
    };
    match both(
        Ok(direction_of(direction)),
        ground_function_of(alloc, function),
    )? {
        Some((direction, function)) => Ok(Some(Metric {
            direction,
            function,
        })),
        None => Ok(None),
    }
}
