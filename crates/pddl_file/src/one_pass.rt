//! Files that are read in one pass, section by section, so that no more of them is held as items than one section.

ghost use Rattle.std.specs.Prelude.{◌≡◌, ◌<◌, ◌≤◌, ◌-◌, ℕ, [], List, length, IfOk, OnOk};
ghost use Rattle.pddl_token.specs.Names.{folded};
ghost use Rattle.pddl_token.specs.Spelling.{PlacedWord, Spells};
ghost use Rattle.pddl_scan.specs.Scanning.{LexedTo};
ghost use Rattle.pddl_text.specs.Inner.NextItems.{ReadsOn, IfRead};
ghost use Rattle.pddl_text.specs.Lists.{deepest};
ghost use Rattle.pddl_file.specs.Inner.Begun.{IsWordBehind, HasBegun};

use crate::fault::FileFault;
use pddl_items::is_word;
use pddl_scan::{LONGEST, TextFault};
use pddl_text::{DEEPEST, NextItem, next_item, next_token};
use pddl_token::{Name, TokenKind};
use std::alloc::{AllocError, Allocator};

/// Why a file is not read in one pass.
#[derive(Clone, Copy)]
pub enum Stop {
    /// A growth was refused.
    Memory,
    /// Something is wrong with the file. What it is, its whole text tells.
    Wrong,
}

impl From<TextFault> for Stop {
    fn from(fault: TextFault) -> Stop {
        match fault {
            TextFault::Memory => Stop::Memory,
            _ => Stop::Wrong,
        }
    }
}

impl From<FileFault> for Stop {
    fn from(fault: FileFault) -> Stop {
        match fault {
            FileFault::Text(fault) => Stop::from(fault),
            _ => Stop::Wrong,
        }
    }
}

impl From<AllocError> for Stop {
    fn from(_error: AllocError) -> Stop {
        Stop::Memory
    }
}

/// The text of the word that stands next behind a place, which is of this kind; the place moves behind it.
pub fn word_behind<'t>(text: &'t [u8], at: &mut usize, kind: TokenKind) -> Result<&'t [u8], Stop>
    requires short { length text.now ≤ LONGEST }
    ensures word { (words : List PlacedWord) → LexedTo text.now words at.old → IfOk result (λ word. IsWordBehind text.now words at.new kind word.now) }
    ensures further { OnOk result ((at.old < at.new) × (at.new ≤ length text.now)) }
{
    match next_token(text, *at)? {
        Some(token) if token.kind == kind => {
            *at = token.span.end as usize;
            Ok(token.text)
        }
        _ => Err(Stop::Wrong),
    }
}

/// The word that stands next behind a place is this name, letter case aside; the place moves behind it.
fn name_behind(text: &[u8], at: &mut usize, name: &[u8]) -> Result<(), Stop>
    requires short { length text.now ≤ LONGEST }
    requires name { folded name.now ≡ name.now }
    ensures { (words : List PlacedWord) → LexedTo text.now words at.old
        → OnOk result ((spelled : List ℕ) × (folded spelled ≡ name.now) × IsWordBehind text.now words at.new TokenKind.Name spelled) }
{
    let found = word_behind(text, at, TokenKind::Name)?;
    if is_word(found, name) {
        Ok(())
    } else {
        Err(Stop::Wrong)
    }
}

/// Reads `(define (WORD NAME)` at the beginning of a text, and answers the name. The place moves from 0 behind it.
pub fn begin_file<'a, B: Allocator>(
    alloc: &'a B,
    word: &[u8],
    text: &[u8],
    at: &mut usize,
) -> Result<Name<&'a B>, Stop>
    requires short { length text.now ≤ LONGEST }
    requires word { folded word.now ≡ word.now }
    requires start { at.old ≡ 0 }
    ensures { IfOk result (λ name. HasBegun word.now name text.now [] at.new) }
{
    word_behind(text, at, TokenKind::Open)?;
    name_behind(text, at, b"define")?;
    word_behind(text, at, TokenKind::Open)?;
    name_behind(text, at, word)?;
    let name = word_behind(text, at, TokenKind::Name)?;
    word_behind(text, at, TokenKind::Close)?;
    Name::new(alloc, name)?.ok_or(Stop::Wrong)
}

/// The section that stands next in a text behind a place, or an end. The place moves behind it. Of a long section the buffer of its lists is as long, and ends
/// here, before the section's value is made.
///
/// # Errors
///
/// Those of [`next_item`].
pub fn next_section<'t, 'a, B: Allocator>(
    alloc: &'a B,
    text: &'t [u8],
    at: &mut usize,
) -> Result<NextItem<'t, &'a B>, TextFault>
    requires { length text.now ≤ LONGEST }
    ensures next { (words : List PlacedWord) → LexedTo text.now words at.old → IfOk result (ReadsOn text.now words (deepest - 1) at.new) }
    ensures further { IfOk result (IfRead ((at.old < at.new) × (at.new ≤ length text.now))) }
{
    let mut lists = Vec::new(alloc);
    next_item(alloc, text, at, DEEPEST - 1, &mut lists)
}

/// A text ends behind a place.
pub fn end_behind(text: &[u8], at: usize) -> Result<(), Stop>
    requires short { length text.now ≤ LONGEST }
    ensures { (words : List PlacedWord) → LexedTo text.now words at → OnOk result (Spells words text.now) }
{
    match next_token(text, at)? {
        None => Ok(()),
        Some(_) => Err(Stop::Wrong),
    }
}
