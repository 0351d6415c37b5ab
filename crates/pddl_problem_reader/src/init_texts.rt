//! Items of `:init` read from the text, word by word, without items or tokens between.
//!
//! What is answered is right. Where something is wrong, what it is shows only in the whole text, and is not looked for here.

ghost use Rattle.std.specs.Prelude.{◌≡◌, ◌<◌, ◌≤◌, ◌++◌, ◌∷◌, [], Some, List, ℕ, suc, length, IfOk, OnOk, codes};
ghost use Rattle.pddl_token.specs.declared.token.TokenKind.{TokenKind};
ghost use Rattle.pddl_token.specs.Spelling.{PlacedWord};
ghost use Rattle.pddl_token.specs.Trees.{placed_leaf, erased};
ghost use Rattle.pddl_token.specs.TreeWords.{SpellsName};
ghost use Rattle.pddl_scan.specs.Scanning.{LexedTo};
ghost use Rattle.pddl_text.specs.Inner.NextWords.{ReadsName, ReadsSign};
ghost use Rattle.pddl_formula.specs.Reserved.{predicate_of};
ghost use Rattle.pddl_problem.specs.Inits.{IsGroundFunction, IsInit, function_view, init_view};
ghost use Rattle.pddl_problem_reader.specs.Inner.InitTexts.{ReadsNames, ReadsObjects, ReadsTree};

use pddl_file::Stop;
use pddl_formula::Predicate;
use pddl_problem::{Fact, GroundFunction, InitItem, ObjectNames};
use pddl_text::{next_name, next_number, next_sign};
use pddl_token::{Name, TokenKind};
use std::alloc::{AllocError, Allocator};

/// The place moves behind `(`, `)`, `-` or `=`, which stands next.
pub fn sign_behind(text: &[u8], at: &mut usize, kind: TokenKind) -> Result<(), Stop>
    ensures sign { (words : List PlacedWord) → LexedTo text.now words at.old → OnOk result (ReadsSign text.now words at.new kind) }
    ensures further { OnOk result ((at.old < at.new) × (at.new ≤ length text.now)) }
{
    if next_sign(text, at, kind) {
        Ok(())
    } else {
        Err(Stop::Wrong)
    }
}

/// The name that stands next.
fn name_behind<'a, B: Allocator>(
    alloc: &'a B,
    text: &[u8],
    at: &mut usize,
) -> Result<Name<&'a B>, Stop>
    ensures name { (words : List PlacedWord) → LexedTo text.now words at.old → IfOk result (ReadsName text.now words at.new) }
    ensures further { OnOk result ((at.old < at.new) × (at.new ≤ length text.now)) }
{
    match next_name(alloc, text, at)? {
        Some(name) => Ok(name),
        None => Err(Stop::Wrong),
    }
}

/// Puts the names that stand next into an empty list.
pub fn add_names<'a, B: Allocator>(
    alloc: &'a B,
    names: &mut Vec<Name<&'a B>, &'a B>,
    text: &[u8],
    at: &mut usize,
) -> Result<(), AllocError>
    requires empty { names.old.items ≡ [] }
    ensures names { (words : List PlacedWord) → LexedTo text.now words at.old → OnOk result (ReadsNames text.now words at.new names.new.items) }
    ensures further { OnOk result (at.old ≤ at.new) }
{
    while let Some(name) = next_name(alloc, text, at)? {
        names.push(name)?;
    }
    Ok(())
}

/// The objects up to the `)` of a fact or a function. They are put into a list first that serves for one after the other, so that theirs take just the memory
/// that they need.
fn objects_behind<'a, B: Allocator>(
    alloc: &'a B,
    names: &mut Vec<Name<&'a B>, &'a B>,
    text: &[u8],
    at: &mut usize,
) -> Result<ObjectNames<&'a B>, Stop>
    ensures objects { (words : List PlacedWord) → LexedTo text.now words at.old → IfOk result (λ objects. ReadsObjects text.now words at.new objects) }
    ensures further { OnOk result ((at.old < at.new) × (at.new ≤ length text.now)) }
{
    names.clear();
    add_names(alloc, names, text, at)?;
    sign_behind(text, at, TokenKind::Close)?;
    Ok(ObjectNames::of(names)?)
}

/// The fact of a predicate's name, the last word that was read, and the objects behind it.
fn fact_behind<'a, B: Allocator>(
    alloc: &'a B,
    names: &mut Vec<Name<&'a B>, &'a B>,
    text: &[u8],
    at: &mut usize,
    name: Name<&'a B>,
) -> Result<Fact<&'a B>, Stop>
    ensures fact { (words : List PlacedWord) → LexedTo text.now words at.old
        → IfOk result (λ fact. (predicate_of name.entry ≡ Some fact.predicate) × ReadsObjects text.now words at.new fact.objects) }
    ensures further { OnOk result ((at.old < at.new) × (at.new ≤ length text.now)) }
{
    let Some(predicate) = Predicate::new(name) else {
        return Err(Stop::Wrong);
    };
    let objects = objects_behind(alloc, names, text, at)?;
    Ok(Fact { predicate, objects })
}

/// The function that stands next, in parentheses with its objects, or bare.
fn function_behind<'a, B: Allocator>(
    alloc: &'a B,
    names: &mut Vec<Name<&'a B>, &'a B>,
    text: &[u8],
    at: &mut usize,
) -> Result<GroundFunction<&'a B>, Stop>
    ensures function { (words : List PlacedWord) → LexedTo text.now words at.old
        → IfOk result (λ function. (levels : ℕ) → ReadsTree (IsGroundFunction (function_view function)) text.now words (suc levels) at.new) }
    ensures further { OnOk result ((at.old < at.new) × (at.new ≤ length text.now)) }
{
    if let Some(function) = next_name(alloc, text, at)? {
        let objects = ObjectNames::none();
        return Ok(GroundFunction { function, objects });
    }
    sign_behind(text, at, TokenKind::Open)?;
    let function = name_behind(alloc, text, at)?;
    let objects = objects_behind(alloc, names, text, at)?;
    Ok(GroundFunction { function, objects })
}

/// A function and its value, behind a `(`, the last word that was read.
fn value_behind<'a, B: Allocator>(
    alloc: &'a B,
    names: &mut Vec<Name<&'a B>, &'a B>,
    text: &[u8],
    at: &mut usize,
) -> Result<InitItem<&'a B>, Stop>
    ensures value { (words : List PlacedWord) (opening : PlacedWord) → opening.kind ≡ TokenKind.Open → LexedTo text.now (words ++ opening ∷ []) at.old
        → IfOk result (λ init. ReadsTree (IsInit (init_view init)) text.now words 126 at.new) }
    ensures further { OnOk result ((at.old < at.new) × (at.new ≤ length text.now)) }
{
    sign_behind(text, at, TokenKind::Equal)?;
    let function = function_behind(alloc, names, text, at)?;
    let Some(number) = next_number(text, at) else {
        return Err(Stop::Wrong);
    };
    sign_behind(text, at, TokenKind::Close)?;
    Ok(InitItem::Value(function, number))
}

/// A fact that does not hold, behind `(not`, the last words that were read.
fn failing_behind<'a, B: Allocator>(
    alloc: &'a B,
    names: &mut Vec<Name<&'a B>, &'a B>,
    text: &[u8],
    at: &mut usize,
) -> Result<InitItem<&'a B>, Stop>
    ensures failing { (words : List PlacedWord) (opening head : PlacedWord) → opening.kind ≡ TokenKind.Open → SpellsName (codes "not") (erased (placed_leaf head))
        → LexedTo text.now ((words ++ opening ∷ []) ++ head ∷ []) at.old → IfOk result (λ init. ReadsTree (IsInit (init_view init)) text.now words 126 at.new) }
    ensures further { OnOk result ((at.old < at.new) × (at.new ≤ length text.now)) }
{
    sign_behind(text, at, TokenKind::Open)?;
    let name = name_behind(alloc, text, at)?;
    let fact = fact_behind(alloc, names, text, at, name)?;
    sign_behind(text, at, TokenKind::Close)?;
    Ok(InitItem::Fails(fact))
}

/// The item of `:init` whose `(` is the last word that was read; the place moves behind its `)`. The objects of one after the other are put into `names` first.
pub fn init_item_behind<'a, B: Allocator>(
    alloc: &'a B,
    names: &mut Vec<Name<&'a B>, &'a B>,
    text: &[u8],
    at: &mut usize,
) -> Result<InitItem<&'a B>, Stop>
    ensures init { (words : List PlacedWord) (opening : PlacedWord) → opening.kind ≡ TokenKind.Open → LexedTo text.now (words ++ opening ∷ []) at.old
        → IfOk result (λ init. ReadsTree (IsInit (init_view init)) text.now words 126 at.new) }
    ensures further { OnOk result ((at.old < at.new) × (at.new ≤ length text.now)) }
{
    match next_name(alloc, text, at)? {
        Some(name) if name.as_bytes() == b"not".as_slice() => {
            failing_behind(alloc, names, text, at)
        }
        Some(name) => Ok(InitItem::Holds(fact_behind(alloc, names, text, at, name)?)),
        None => value_behind(alloc, names, text, at),
    }
}
