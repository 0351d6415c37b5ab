//! Types and typed lists read from items.

ghost use Rattle.std.specs.Prelude.{◌≡◌, [], ◌∷◌, ◌++◌, false, IsTrue, IfOk, IsOkAnd, Err, MatchResult, map, option_map, option_and_then};
ghost use Rattle.std.specs.Bool.{then_some};
ghost use Rattle.pddl_token.specs.Names.{name_of as name_in};
ghost use Rattle.pddl_items.specs.ItemTrees.{item_tree, item_trees};
ghost use Rattle.pddl_items.specs.Inner.TreeReading.{all_of, is_dash};
ghost use Rattle.pddl_formula.specs.Reserved.{type_of, type_name_of};
ghost use Rattle.pddl_formula.specs.TypedLists.{object, typed_view, of_type};
ghost use Rattle.pddl_formula_reader.specs.Inner.Reading.{type_name_at, either_of, type_at, typed_from, typed_list, typed_names, typed_variables, variables_at};
ghost use Rattle.pddl_formula_reader.specs.Inner.Sorts.{item_at};

use crate::term_reader::variable_of;
use pddl_build::{if_right, list_if_right, push_found};
use pddl_formula::{TypeName, TypeNames, TypedList};
use pddl_items::{Item, is_dash, is_word_item, name_of};
use pddl_token::Name;
use std::alloc::{AllocError, Allocator};
use std::mem::replace;

/// What a typed list lists.
#[derive(Clone, Copy)]
enum Sort {
    Names,
    Variables,
}

/// The primitive type that an item spells, or `None` where it spells none (Kovacs, `<primitive-type>`).
///
/// Fails where memory for the name is refused.
pub fn type_name_of<'a, B: Allocator>(
    alloc: &'a B,
    item: &Item<'_, &'a B>,
) -> Result<Option<TypeName<&'a B>>, AllocError>
    ensures { IfOk result (λ name. name ≡ type_name_at (item_tree item.now)) }
{
    let Some(name) = name_of(alloc, item)? else {
        return Ok(None);
    };
    Ok(TypeName::new(name))
}

/// The primitive types that some items are, each of them.
fn type_names_of<'a, B: Allocator>(
    alloc: &'a B,
    items: &[Item<'_, &'a B>],
) -> Result<Option<Vec<TypeName<&'a B>, &'a B>>, AllocError>
    ensures { IfOk result (λ names. option_map (λ v. v.items) names ≡ all_of (map type_name_at (item_trees items.now))) }
{
    let mut names = Vec::with_capacity(alloc, items.len())?;
    let all = add_type_names(alloc, &mut names, items);
    list_if_right(names, all)
}

/// Adds the primitive types that some items are; true exactly where each of them is one.
fn add_type_names<'a, B: Allocator>(
    alloc: &'a B,
    names: &mut Vec<TypeName<&'a B>, &'a B>,
    items: &[Item<'_, &'a B>],
) -> Result<bool, AllocError>
    ensures { IfOk result (λ all. then_some all names.new.items ≡ option_map (λ more. names.old.items ++ more) (all_of (map type_name_at (item_trees items.now)))) }
{
    for item in items {
        if !push_found(names, type_name_of(alloc, item))? {
            return Ok(false);
        }
    }
    Ok(true)
}

/// The type of primitive types, if there are some.
fn type_of_names<A: Allocator>(
    alloc: A,
    names: Option<Vec<TypeName<A>, A>>,
) -> Result<Option<TypeNames<A>>, AllocError>
    ensures { IfOk result (λ found. found ≡ option_and_then type_of (option_map (λ v. v.items) names)) }
{
    match names {
        None => Ok(None),
        Some(names) => TypeNames::new(alloc, names),
    }
}

/// The type behind the word `either`.
fn either_of<'a, B: Allocator>(
    alloc: &'a B,
    items: &[Item<'_, &'a B>],
) -> Result<Option<TypeNames<&'a B>>, AllocError>
    ensures { IfOk result (λ found. found ≡ either_of (item_trees items.now)) }
{
    let [head, rest @ ..] = items else {
        return Ok(None);
    };
    if !is_word_item(head, b"either") {
        return Ok(None);
    }
    let names = type_names_of(alloc, rest)?;
    type_of_names(alloc, names)
}

/// The type of one primitive type, if there is one.
fn single<'a, B: Allocator>(
    alloc: &'a B,
    name: Result<Option<TypeName<&'a B>>, AllocError>,
) -> Result<Option<TypeNames<&'a B>>, AllocError>
    ensures { IfOk result (λ found. IsOkAnd name.entry (λ n. found ≡ option_map (λ t. t ∷ []) n)) }
{
    let mut names = Vec::new(alloc);
    let right = push_found(&mut names, name);
    type_of_names(alloc, list_if_right(names, right)?)
}

/// The type that an item spells, or `None` where it spells none: a primitive type, or `(either t+)` of primitive types
/// (Kovacs, `<type>`; `(either t)` is `t`, own).
///
/// Fails where memory for the type is refused.
pub fn type_of<'a, B: Allocator>(
    alloc: &'a B,
    item: &Item<'_, &'a B>,
) -> Result<Option<TypeNames<&'a B>>, AllocError>
    ensures { IfOk result (λ found. found ≡ type_at (item_tree item.now)) }
{
    match item {
        Item::Word(_) => single(alloc, type_name_of(alloc, item)),
        Item::List(items, _) => either_of(alloc, items),
    }
}

/// The primitive type of this name, or `None` where it may not be one.
///
/// Fails where memory for the name is refused.
pub fn type_name_called<'a, B: Allocator>(
    alloc: &'a B,
    name: &[u8],
) -> Result<Option<TypeName<&'a B>>, AllocError>
    ensures { IfOk result (λ found. found ≡ option_and_then type_name_of (name_in name.now)) }
{
    let Some(name) = Name::new(alloc, name)? else {
        return Ok(None);
    };
    Ok(TypeName::new(name))
}

/// The type of one primitive type of this name, or `None` where it may not be one.
///
/// Fails where memory for the type is refused.
pub fn type_called<'a, B: Allocator>(
    alloc: &'a B,
    name: &[u8],
) -> Result<Option<TypeNames<&'a B>>, AllocError>
    ensures { IfOk result (λ found. found ≡ option_map (λ n. n ∷ []) (option_and_then type_name_of (name_in name.now))) }
{
    single(alloc, type_name_called(alloc, name))
}

/// The item of a typed list of this sort.
fn listed_of<'a, B: Allocator>(
    alloc: &'a B,
    sort: Sort,
    item: &Item<'_, &'a B>,
) -> Result<Option<Name<&'a B>>, AllocError>
    ensures { IfOk result (λ name. name ≡ item_at sort (item_tree item.now)) }
{
    match sort {
        Sort::Names => name_of(alloc, item),
        Sort::Variables => variable_of(alloc, item),
    }
}

/// Adds the names of a group, each with the type, if there is one; true exactly where there is one, and then the next group,
/// which is empty, stands in its place.
///
/// Fails as the type failed, and where memory for the names is refused.
fn add_typed<A: Allocator>(
    found: &mut TypedList<A>,
    group: &mut Vec<Name<A>, A>,
    next: Vec<Name<A>, A>,
    types: Result<Option<TypeNames<A>>, AllocError>,
) -> Result<bool, AllocError>
    requires { next.items ≡ [] }
    ensures typed { MatchResult types
        (λ type. IfOk result (λ right. then_some right (map typed_view found.new.items) ≡ option_map (λ t. map typed_view found.old.items ++ of_type group.old.items t) type))
        (λ e. result ≡ Err e) }
    ensures group { IfOk result (λ right. IsTrue right → group.new.items ≡ []) }
{
    let Some(types) = types? else {
        return Ok(false);
    };
    found.add(replace(group, next), &types)?;
    Ok(true)
}

/// Adds the typed list of this sort that some items are, behind a group of names that has no type yet; true exactly where
/// they are one.
fn add_typed_list<'a, B: Allocator>(
    alloc: &'a B,
    sort: Sort,
    found: &mut TypedList<&'a B>,
    group: &mut Vec<Name<&'a B>, &'a B>,
    items: &[Item<'_, &'a B>],
) -> Result<bool, AllocError>
    ensures { IfOk result (λ right. then_some right (map typed_view found.new.items) ≡ typed_from (item_at sort) type_at object (map typed_view found.old.items) group.old.items false (item_trees items.now)) }
{
    let mut after_dash = false;
    for item in items {
        if after_dash {
            if !add_typed(found, group, Vec::new(alloc), type_of(alloc, item))? {
                return Ok(false);
            }
            after_dash = false;
        } else if is_dash(item) {
            if group.len() == 0 {
                return Ok(false);
            }
            after_dash = true;
        } else if !push_found(group, listed_of(alloc, sort, item))? {
            return Ok(false);
        }
    }
    if after_dash {
        return Ok(false);
    }
    add_typed(found, group, Vec::new(alloc), type_called(alloc, b"object"))
}

/// The typed list of this sort that some items are.
fn typed_list_of<'a, B: Allocator>(
    alloc: &'a B,
    sort: Sort,
    items: &[Item<'_, &'a B>],
) -> Result<Option<TypedList<&'a B>>, AllocError>
    ensures { IfOk result (λ typed. option_map (λ v. map typed_view v.items) typed ≡ typed_list (item_at sort) type_at object (item_trees items.now)) }
{
    let mut found = TypedList::new(alloc);
    let mut group = Vec::new(alloc);
    let right = add_typed_list(alloc, sort, &mut found, &mut group, items);
    if_right(found, right)
}

/// The typed names that some items spell, or `None` where they spell none: constants or objects, those without a type
/// being of type `object` (Kovacs, `<typed list (name)>`).
///
/// Fails where memory for them is refused.
pub fn typed_names_of<'a, B: Allocator>(
    alloc: &'a B,
    items: &[Item<'_, &'a B>],
) -> Result<Option<TypedList<&'a B>>, AllocError>
    ensures { IfOk result (λ typed. option_map (λ v. map typed_view v.items) typed ≡ typed_names (item_trees items.now)) }
{
    typed_list_of(alloc, Sort::Names, items)
}

/// The typed variables that some items spell, or `None` where they spell none: parameters, those without a type being of
/// type `object` (Kovacs, `<typed list (variable)>`).
///
/// Fails where memory for them is refused.
pub fn typed_variables_of<'a, B: Allocator>(
    alloc: &'a B,
    items: &[Item<'_, &'a B>],
) -> Result<Option<TypedList<&'a B>>, AllocError>
    ensures { IfOk result (λ typed. option_map (λ v. map typed_view v.items) typed ≡ typed_variables (item_trees items.now)) }
{
    typed_list_of(alloc, Sort::Variables, items)
}

/// The typed variables that an item spells as a list in parentheses, or `None` where it spells none.
///
/// Fails where memory for them is refused.
pub fn variables_of<'a, B: Allocator>(
    alloc: &'a B,
    item: &Item<'_, &'a B>,
) -> Result<Option<TypedList<&'a B>>, AllocError>
    ensures { IfOk result (λ typed. option_map (λ v. map typed_view v.items) typed ≡ variables_at (item_tree item.now)) }
{
    match item {
        Item::List(items, _) => typed_variables_of(alloc, items),
        Item::Word(_) => Ok(None),
    }
}
