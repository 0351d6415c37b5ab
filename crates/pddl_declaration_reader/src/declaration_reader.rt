//! Declarations read from items.

ghost use Rattle.std.specs.Prelude.{◌≡◌, ◌++◌, [], false, Err, IsTrue, IfOk, OnOk, MatchResult, Some, codes, map, option_map};
ghost use Rattle.std.specs.Bool.{then_some};
ghost use Rattle.pddl_items.specs.ItemTrees.{item_tree, item_trees};
ghost use Rattle.pddl_items.specs.Inner.TreeReading.{all_of};
ghost use Rattle.pddl_formula.specs.TypedLists.{of_type};
ghost use Rattle.pddl_formula_reader.specs.Inner.Reading.{type_name_at, type_at, typed_from};
ghost use Rattle.pddl_domain.specs.Declarations.{number, type_view, predicate_view, function_view};
ghost use Rattle.pddl_declaration_reader.specs.Inner.Signatures.{signature_view};
ghost use Rattle.pddl_declaration_reader.specs.Inner.DeclarationReading.{predicate_of_list, predicate_signature_at, function_of_list, function_signature_at, types_of, functions_of};

use pddl_build::{if_right, list_if_right, push_found};
use pddl_domain::{DeclaredFunction, DeclaredPredicate, DeclaredTypes};
use pddl_formula::{TypeName, TypeNames, TypedList};
use pddl_formula_reader::{
    predicate_of, type_called, type_name_called, type_name_of, type_of, typed_variables_of,
};
use pddl_items::{Item, is_dash, name_of};
use pddl_token::Name;
use std::alloc::{AllocError, Allocator};
use std::mem::replace;
use std::rc::Rc;

/// A function and its parameters, before the type of its result is known.
#[derive(Drop)]
struct Signature<A: Allocator> {
    name: Name<A>,
    parameters: TypedList<A>,
}

/// The predicate that some items declare.
fn predicate_of_list<'a, B: Allocator>(
    alloc: &'a B,
    items: &[Item<'_, &'a B>],
) -> Result<Option<DeclaredPredicate<&'a B>>, AllocError>
    ensures { IfOk result (λ found. option_map predicate_view found ≡ predicate_of_list (item_trees items.now)) }
{
    let [head, rest @ ..] = items else {
        return Ok(None);
    };
    let Some(predicate) = predicate_of(alloc, head)? else {
        return Ok(None);
    };
    let Some(parameters) = typed_variables_of(alloc, rest)? else {
        return Ok(None);
    };
    Ok(Some(DeclaredPredicate {
        predicate,
        parameters,
    }))
}

/// The predicate that an item declares.
fn declared_predicate_of<'a, B: Allocator>(
    alloc: &'a B,
    item: &Item<'_, &'a B>,
) -> Result<Option<DeclaredPredicate<&'a B>>, AllocError>
    ensures { IfOk result (λ found. option_map predicate_view found ≡ predicate_signature_at (item_tree item.now)) }
{
    match item {
        Item::List(items, _) => predicate_of_list(alloc, items),
        Item::Word(_) => Ok(None),
    }
}

/// The predicates that some items declare, one each, or `None` where one of them declares none (Kovacs,
/// `<atomic formula skeleton>`).
///
/// Fails where memory for the predicates is refused.
pub fn declared_predicates_of<'a, B: Allocator>(
    alloc: &'a B,
    items: &[Item<'_, &'a B>],
) -> Result<Option<Vec<DeclaredPredicate<&'a B>, &'a B>>, AllocError>
    ensures { IfOk result (λ found. option_map (λ v. map predicate_view v.items) found ≡ all_of (map predicate_signature_at (item_trees items.now))) }
{
    let mut predicates = Vec::with_capacity(alloc, items.len())?;
    for item in items {
        let Some(predicate) = declared_predicate_of(alloc, item)? else {
            return Ok(None);
        };
        predicates.push(predicate)?;
    }
    Ok(Some(predicates))
}

/// The function that some items declare.
fn signature_of_list<'a, B: Allocator>(
    alloc: &'a B,
    items: &[Item<'_, &'a B>],
) -> Result<Option<Signature<&'a B>>, AllocError>
    ensures { IfOk result (λ found. option_map signature_view found ≡ function_of_list (item_trees items.now)) }
{
    let [head, rest @ ..] = items else {
        return Ok(None);
    };
    let Some(name) = name_of(alloc, head)? else {
        return Ok(None);
    };
    let Some(parameters) = typed_variables_of(alloc, rest)? else {
        return Ok(None);
    };
    Ok(Some(Signature { name, parameters }))
}

/// The function that an item declares.
fn signature_of<'a, B: Allocator>(
    alloc: &'a B,
    item: &Item<'_, &'a B>,
) -> Result<Option<Signature<&'a B>>, AllocError>
    ensures { IfOk result (λ found. option_map signature_view found ≡ function_signature_at (item_tree item.now)) }
{
    match item {
        Item::List(items, _) => signature_of_list(alloc, items),
        Item::Word(_) => Ok(None),
    }
}

/// Adds functions, which share the type of their results.
fn add_sharing<A: Allocator>(
    found: &mut Vec<DeclaredFunction<A>, A>,
    signatures: Vec<Signature<A>, A>,
    types: &TypeNames<A>,
) -> Result<(), AllocError>
    ensures { OnOk result (map function_view found.new.items ≡ map function_view found.old.items ++ of_type (map signature_view signatures.items) types.now) }
{
    for signature in signatures {
        let result = types.share()?;
        let Signature { name, parameters } = signature;
        found.push(DeclaredFunction {
            name,
            parameters,
            result,
        })?;
    }
    Ok(())
}

/// Adds the functions of a group, with the type of their results, if there is one; true exactly where there is one, and then the next group, which is empty,
/// stands in its place.
///
/// Fails as the type failed, and where memory for the functions is refused.
fn add_functions<A: Allocator>(
    found: &mut Vec<DeclaredFunction<A>, A>,
    group: &mut Vec<Signature<A>, A>,
    next: Vec<Signature<A>, A>,
    types: Result<Option<TypeNames<A>>, AllocError>,
) -> Result<bool, AllocError>
    requires { next.items ≡ [] }
    ensures typed { MatchResult types
        (λ type. IfOk result (λ right. then_some right (map function_view found.new.items) ≡ option_map (λ t. map function_view found.old.items ++ of_type (map signature_view group.old.items) t) type))
        (λ e. result ≡ Err e) }
    ensures group { IfOk result (λ right. IsTrue right → group.new.items ≡ []) }
{
    let Some(types) = types? else {
        return Ok(false);
    };
    add_sharing(found, replace(group, next), &types)?;
    Ok(true)
}

/// Adds the functions that some items declare, behind a group whose results have no type yet; true exactly where they declare some.
fn add_declared_functions<'a, B: Allocator>(
    alloc: &'a B,
    found: &mut Vec<DeclaredFunction<&'a B>, &'a B>,
    group: &mut Vec<Signature<&'a B>, &'a B>,
    items: &[Item<'_, &'a B>],
) -> Result<bool, AllocError>
    ensures { IfOk result (λ right. then_some right (map function_view found.new.items)
        ≡ typed_from function_signature_at type_at number (map function_view found.old.items) (map signature_view group.old.items) false (item_trees items.now)) }
{
    let mut after_dash = false;
    for item in items {
        if after_dash {
            if !add_functions(found, group, Vec::new(alloc), type_of(alloc, item))? {
                return Ok(false);
            }
            after_dash = false;
        } else if is_dash(item) {
            if group.len() == 0 {
                return Ok(false);
            }
            after_dash = true;
        } else if !push_found(group, signature_of(alloc, item))? {
            return Ok(false);
        }
    }
    if after_dash {
        return Ok(false);
    }
    add_functions(found, group, Vec::new(alloc), type_called(alloc, b"number"))
}

/// The functions that some items declare, with the types of their results, or `None` where they declare none: those without
/// a type have results of type `number` (Kovacs, `<function typed list (atomic function skeleton)>`).
///
/// Fails where memory for the functions is refused.
pub fn declared_functions_of<'a, B: Allocator>(
    alloc: &'a B,
    items: &[Item<'_, &'a B>],
) -> Result<Option<Vec<DeclaredFunction<&'a B>, &'a B>>, AllocError>
    ensures { IfOk result (λ found. option_map (λ v. map function_view v.items) found ≡ functions_of (item_trees items.now)) }
{
    let mut found = Vec::new(alloc);
    let mut group = Vec::new(alloc);
    let right = add_declared_functions(alloc, &mut found, &mut group, items);
    list_if_right(found, right)
}

/// Adds the types of a group, with their parent, if there is one; true exactly where there is one, and then the next group, which is empty, stands in its
/// place.
///
/// Fails as the parent failed, and where memory for the types is refused.
fn add_types<'a, B: Allocator>(
    alloc: &'a B,
    found: &mut DeclaredTypes<&'a B>,
    group: &mut Vec<TypeName<&'a B>, &'a B>,
    next: Vec<TypeName<&'a B>, &'a B>,
    parent: Result<Option<TypeName<&'a B>>, AllocError>,
) -> Result<bool, AllocError>
    requires { next.items ≡ [] }
    ensures typed { MatchResult parent.entry
        (λ type. IfOk result (λ right. then_some right (map type_view found.new.items) ≡ option_map (λ t. map type_view found.old.items ++ of_type group.old.items t) type))
        (λ e. result ≡ Err e) }
    ensures group { IfOk result (λ right. IsTrue right → group.new.items ≡ []) }
{
    let Some(parent) = parent? else {
        return Ok(false);
    };
    let parent = Rc::new(alloc, parent)?;
    found.add(replace(group, next), &parent)?;
    Ok(true)
}

/// Adds the types that some items declare, behind a group that has no parent yet; true exactly where they declare some.
fn add_declared_types<'a, B: Allocator>(
    alloc: &'a B,
    found: &mut DeclaredTypes<&'a B>,
    group: &mut Vec<TypeName<&'a B>, &'a B>,
    items: &[Item<'_, &'a B>],
) -> Result<bool, AllocError>
    ensures { IfOk result (λ right. then_some right (map type_view found.new.items)
        ≡ typed_from type_name_at type_name_at (codes "object") (map type_view found.old.items) group.old.items false (item_trees items.now)) }
{
    let mut after_dash = false;
    for item in items {
        if after_dash {
            if !add_types(
                alloc,
                found,
                group,
                Vec::new(alloc),
                type_name_of(alloc, item),
            )? {
                return Ok(false);
            }
            after_dash = false;
        } else if is_dash(item) {
            if group.len() == 0 {
                return Ok(false);
            }
            after_dash = true;
        } else if !push_found(group, type_name_of(alloc, item))? {
            return Ok(false);
        }
    }
    if after_dash {
        return Ok(false);
    }
    add_types(
        alloc,
        found,
        group,
        Vec::new(alloc),
        type_name_called(alloc, b"object"),
    )
}

/// The types that some items declare, with their parents, or `None` where they declare none: those without a parent are
/// below `object` (Kovacs, `<types-def>`).
///
/// Fails where memory for the types is refused.
pub fn declared_types_of<'a, B: Allocator>(
    alloc: &'a B,
    items: &[Item<'_, &'a B>],
) -> Result<Option<DeclaredTypes<&'a B>>, AllocError>
    ensures { IfOk result (λ found. option_map (λ v. map type_view v.items) found ≡ types_of (item_trees items.now)) }
{
    let mut found = DeclaredTypes::new(alloc);
    let mut group = Vec::new(alloc);
    let right = add_declared_types(alloc, &mut found, &mut group, items);
    if_right(found, right)
}
