//! Names, variables, terms and atoms read from items.

ghost use Rattle.std.specs.Prelude.{◌≡◌, ◌++◌, IfOk, map, option_map};
ghost use Rattle.std.specs.Bool.{then_some};
ghost use Rattle.pddl_build.specs.Results.{map_found};
ghost use Rattle.pddl_items.specs.ItemTrees.{item_tree, item_trees};
ghost use Rattle.pddl_items.specs.Inner.TreeReading.{name_at, variable_at, variable_name, all_of};
ghost use Rattle.pddl_formula.specs.Terms.{term_view, atom_view};
ghost use Rattle.pddl_formula_reader.specs.Inner.Reading.{term_at, predicate_at, atom_of_list, atom_at};

use pddl_build::{list_if_right, push_found};
use pddl_formula::{Atom, Predicate, Term};
use pddl_items::{Item, name_of};
use pddl_token::{Name, TokenKind};
use std::alloc::{AllocError, Allocator};

/// The names that some items spell, one each, or `None` where one of them spells none.
///
/// Fails where memory for the names is refused.
pub fn names_of<'a, B: Allocator>(
    alloc: &'a B,
    items: &[Item<'_, &'a B>],
) -> Result<Option<Vec<Name<&'a B>, &'a B>>, AllocError>
    ensures { IfOk result (λ names. option_map (λ v. v.items) names ≡ all_of (map name_at (item_trees items.now))) }
{
    let mut names = Vec::with_capacity(alloc, items.len())?;
    let all = add_names(alloc, &mut names, items);
    list_if_right(names, all)
}

/// Adds the names that some items spell, one each; true exactly where each of them spells one.
fn add_names<'a, B: Allocator>(
    alloc: &'a B,
    names: &mut Vec<Name<&'a B>, &'a B>,
    items: &[Item<'_, &'a B>],
) -> Result<bool, AllocError>
    ensures { IfOk result (λ all. then_some all names.new.items ≡ option_map (λ more. names.old.items ++ more) (all_of (map name_at (item_trees items.now)))) }
{
    for item in items {
        if !push_found(names, name_of(alloc, item))? {
            return Ok(false);
        }
    }
    Ok(true)
}

/// The variable that an item spells, without `?`, or `None` where it spells none (Kovacs, `<variable>`).
///
/// Fails where memory for the name is refused.
pub fn variable_of<'a, B: Allocator>(
    alloc: &'a B,
    item: &Item<'_, &'a B>,
) -> Result<Option<Name<&'a B>>, AllocError>
    ensures { IfOk result (λ name. name ≡ variable_at (item_tree item.now)) }
{
    match item {
        Item::Word(token) => match token.kind {
            TokenKind::Variable => variable_name(alloc, token.text),
            _ => Ok(None),
        },
        Item::List(_, _) => Ok(None),
    }
}

/// The name behind `?`.
fn variable_name<'a, B: Allocator>(
    alloc: &'a B,
    text: &[u8],
) -> Result<Option<Name<&'a B>>, AllocError>
    ensures { IfOk result (λ name. name ≡ variable_name text.now) }
{
    match text {
        [b'?', name @ ..] => Name::new(alloc, name),
        _ => Ok(None),
    }
}

/// The term that an item spells, or `None` where it spells none (Kovacs, `<term>`, of names and variables alone).
///
/// Fails where memory for the term is refused.
pub fn term_of<'a, B: Allocator>(
    alloc: &'a B,
    item: &Item<'_, &'a B>,
) -> Result<Option<Term<&'a B>>, AllocError>
    ensures { IfOk result (λ term. option_map term_view term ≡ term_at (item_tree item.now)) }
{
    match item {
        Item::Word(token) => match token.kind {
            TokenKind::Name => {
                let Some(name) = Name::new(alloc, token.text)? else {
                    return Ok(None);
                };
                Ok(Some(Term::Name(name)))
            }
            TokenKind::Variable => {
                let Some(name) = variable_name(alloc, token.text)? else {
                    return Ok(None);
                };
                Ok(Some(Term::Variable(name)))
            }
            _ => Ok(None),
        },
        Item::List(_, _) => Ok(None),
    }
}

/// The terms that some items spell, one each, or `None` where one of them spells none.
///
/// Fails where memory for the terms is refused.
pub fn terms_of<'a, B: Allocator>(
    alloc: &'a B,
    items: &[Item<'_, &'a B>],
) -> Result<Option<Vec<Term<&'a B>, &'a B>>, AllocError>
    ensures { IfOk result (λ terms. option_map (λ v. map term_view v.items) terms ≡ all_of (map term_at (item_trees items.now))) }
{
    let mut terms = Vec::with_capacity(alloc, items.len())?;
    let all = add_terms(alloc, &mut terms, items);
    list_if_right(terms, all)
}

/// Adds the terms that some items spell, one each; true exactly where each of them spells one.
fn add_terms<'a, B: Allocator>(
    alloc: &'a B,
    terms: &mut Vec<Term<&'a B>, &'a B>,
    items: &[Item<'_, &'a B>],
) -> Result<bool, AllocError>
    ensures { IfOk result (λ all. then_some all (map term_view terms.new.items) ≡ option_map (λ more. map term_view terms.old.items ++ more) (all_of (map term_at (item_trees items.now)))) }
{
    for item in items {
        if !push_found(terms, term_of(alloc, item))? {
            return Ok(false);
        }
    }
    Ok(true)
}

/// The predicate that an item spells, or `None` where it spells none (Kovacs, `<predicate>`).
///
/// Fails where memory for the name is refused.
pub fn predicate_of<'a, B: Allocator>(
    alloc: &'a B,
    item: &Item<'_, &'a B>,
) -> Result<Option<Predicate<&'a B>>, AllocError>
    ensures { IfOk result (λ predicate. predicate ≡ predicate_at (item_tree item.now)) }
{
    let Some(name) = name_of(alloc, item)? else {
        return Ok(None);
    };
    Ok(Predicate::new(name))
}

/// The atom of a list of these items, or `None` where they are none: a predicate and its terms
/// (Kovacs, `<atomic formula(term)>`).
///
/// Fails where memory for the atom is refused.
pub fn atom_of_list<'a, B: Allocator>(
    alloc: &'a B,
    items: &[Item<'_, &'a B>],
) -> Result<Option<Atom<&'a B>>, AllocError>
    ensures { IfOk result (λ atom. option_map atom_view atom ≡ atom_of_list (item_trees items.now)) }
{
    let [head, terms @ ..] = items else {
        return Ok(None);
    };
    let Some(predicate) = predicate_of(alloc, head)? else {
        return Ok(None);
    };
    atom(predicate, terms_of(alloc, terms))
}

/// A predicate and its arguments, if they were read.
fn atom<A: Allocator>(
    predicate: Predicate<A>,
    terms: Result<Option<Vec<Term<A>, A>>, AllocError>,
) -> Result<Option<Atom<A>>, AllocError>
    ensures { result ≡ map_found (λ terms. record { predicate = predicate; terms = terms }) terms }
{
    let Some(terms) = terms? else {
        return Ok(None);
    };
    Ok(Some(Atom { predicate, terms }))
}

/// The atom that an item spells, or `None` where it spells none (Kovacs, `<atomic formula(term)>`).
///
/// Fails where memory for the atom is refused.
pub fn atom_of<'a, B: Allocator>(
    alloc: &'a B,
    item: &Item<'_, &'a B>,
) -> Result<Option<Atom<&'a B>>, AllocError>
    ensures { IfOk result (λ atom. option_map atom_view atom ≡ atom_at (item_tree item.now)) }
{
    match item {
        Item::List(items, _) => atom_of_list(alloc, items),
        Item::Word(_) => Ok(None),
    }
}
