//! Typed lists of names read from the text, word by word, with no item between but those of types.
//!
//! What is answered is right. Where something is wrong, what it is shows only in the whole text, and is not looked for here.

ghost use Rattle.std.specs.Prelude.{◌≡◌, ◌≢◌, ◌<◌, ◌≤◌, ◌++◌, ℕ, [], List, map, length, IfOk, OnOk};
ghost use Rattle.pddl_token.specs.declared.token.TokenKind.{TokenKind};
ghost use Rattle.pddl_token.specs.Spelling.{PlacedWord};
ghost use Rattle.pddl_scan.specs.Scanning.{LexedTo};
ghost use Rattle.pddl_text.specs.Inner.NextWords.{ReadsSign};
ghost use Rattle.pddl_formula.specs.TypedLists.{IsType, object, of_type, typed_view};
ghost use Rattle.pddl_file.specs.declared.keyword.SectionKeyword.{SectionKeyword};
ghost use Rattle.pddl_problem_reader.specs.ProblemTexts.{objects};
ghost use Rattle.pddl_problem_reader.specs.Inner.InitTexts.{ReadsTree};
ghost use Rattle.pddl_problem_reader.specs.Inner.OnePass.{ReadsPart};

use crate::init_texts::{add_names, sign_behind};
use pddl_file::Stop;
use pddl_formula::{TypeNames, TypedList};
use pddl_formula_reader::{type_called, type_of};
use pddl_scan::LONGEST;
use pddl_text::{DEEPEST, NextItem, next_item, next_sign};
use pddl_token::{Name, TokenKind};
use std::alloc::{AllocError, Allocator};

/// The type that stands next, in a section.
fn type_behind<'a, B: Allocator>(
    alloc: &'a B,
    text: &[u8],
    at: &mut usize,
) -> Result<TypeNames<&'a B>, Stop>
    requires short { length text.now ≤ LONGEST }
    ensures spelled { (words : List PlacedWord) → LexedTo text.now words at.old → IfOk result (λ types. ReadsTree (IsType types) text.now words 126 at.new) }
    ensures further { OnOk result ((at.old < at.new) × (at.new ≤ length text.now)) }
{
    let mut lists = Vec::new(alloc);
    let NextItem::Item(item) = next_item(alloc, text, at, DEEPEST - 2, &mut lists)? else {
        return Err(Stop::Wrong);
    };
    match type_of(alloc, &item)? {
        Some(types) => Ok(types),
        None => Err(Stop::Wrong),
    }
}

/// Adds the names of a group, which have this type.
fn add_of_type<A: Allocator>(
    found: &mut TypedList<A>,
    group: Vec<Name<A>, A>,
    types: TypeNames<A>,
) -> Result<(), AllocError>
    ensures { OnOk result (map typed_view found.new.items ≡ map typed_view found.old.items ++ of_type group.items types) }
{
    found.add(group, &types)
}

/// Adds the names of a group, with the type that stands next.
fn add_group<'a, B: Allocator>(
    alloc: &'a B,
    found: &mut TypedList<&'a B>,
    group: Vec<Name<&'a B>, &'a B>,
    text: &[u8],
    at: &mut usize,
) -> Result<(), Stop>
    requires short { length text.now ≤ LONGEST }
    ensures some { OnOk result (group.entry.items ≢ []) }
    ensures group { (words : List PlacedWord) → LexedTo text.now words at.old
        → OnOk result ((type : List (List ℕ)) × ReadsTree (IsType type) text.now words 126 at.new × (map typed_view found.new.items ≡ map typed_view found.old.items ++ of_type group.entry.items type)) }
    ensures further { OnOk result ((at.old < at.new) × (at.new ≤ length text.now)) }
{
    if group.len() == 0 {
        return Err(Stop::Wrong);
    }
    let types = type_behind(alloc, text, at)?;
    Ok(add_of_type(found, group, types)?)
}

/// Adds the names of the last group, which has no type, up to the `)` that stands next.
fn add_last<'a, B: Allocator>(
    alloc: &'a B,
    found: &mut TypedList<&'a B>,
    group: Vec<Name<&'a B>, &'a B>,
    text: &[u8],
    at: &mut usize,
) -> Result<(), Stop>
    ensures last { (words : List PlacedWord) → LexedTo text.now words at.old
        → OnOk result (ReadsSign text.now words at.new TokenKind.Close × (map typed_view found.new.items ≡ map typed_view found.old.items ++ of_type group.entry.items object)) }
    ensures further { OnOk result ((at.old < at.new) × (at.new ≤ length text.now)) }
{
    sign_behind(text, at, TokenKind::Close)?;
    let Some(types) = type_called(alloc, b"object")? else {
        return Err(Stop::Wrong);
    };
    Ok(add_of_type(found, group, types)?)
}

/// Puts the typed list of names up to the `)` of a section into an empty list.
pub fn add_typed_names<'a, B: Allocator>(
    alloc: &'a B,
    found: &mut TypedList<&'a B>,
    text: &[u8],
    at: &mut usize,
) -> Result<(), Stop>
    requires short { length text.now ≤ LONGEST }
    requires empty { found.old.items ≡ [] }
    ensures objects { (words : List PlacedWord) → LexedTo text.now words at.old
        → OnOk result (ReadsPart SectionKeyword.Objects (objects (map typed_view found.new.items)) text.now words at.new) }
    ensures further { OnOk result ((at.old < at.new) × (at.new ≤ length text.now)) }
{
    loop {
        let mut group = Vec::new(alloc);
        add_names(alloc, &mut group, text, at)?;
        if !next_sign(text, at, TokenKind::Dash) {
            return add_last(alloc, found, group, text, at);
        }
        add_group(alloc, found, group, text, at)?;
    }
}
