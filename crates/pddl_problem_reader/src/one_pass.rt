//! Problems read in one pass over their text, section by section, so that no more of it is held as items than a section; of `:objects`, which is read group
//! by group, no more than a type, and of `:init`, which is read item by item, nothing.
//!
//! What is answered is right. Where something is wrong, what it is shows only in the whole text, and is not looked for here.

ghost use Rattle.std.specs.Prelude.{◌≡◌, ◌<◌, ◌≤◌, ◌++◌, ◌∷◌, [], Some, None, List, ℕ, map, length, IfOk, IfSome, IsOk, OnOk, codes};
ghost use Rattle.pddl_token.specs.Names.{folded};
ghost use Rattle.pddl_token.specs.Spelling.{PlacedWord};
ghost use Rattle.pddl_scan.specs.Scanning.{LexedTo};
ghost use Rattle.pddl_items.specs.Items.{item_view};
ghost use Rattle.pddl_formula.specs.TypedLists.{TypedValue, typed_view};
ghost use Rattle.pddl_sections.specs.Inner.Verdicts.{turn};
ghost use Rattle.pddl_sections.specs.Inner.Answers.{first_missing};
ghost use Rattle.pddl_file.specs.Inner.Begun.{HasBegun};
ghost use Rattle.pddl_file.specs.Inner.WordReading.{with_seen};
ghost use Rattle.pddl_file.specs.declared.keyword.SectionKeyword.{SectionKeyword};
ghost use Rattle.pddl_problem.specs.Inits.{InitValue, init_view};
ghost use Rattle.pddl_problem_reader.specs.ProblemTexts.{objects, init, required};
ghost use Rattle.pddl_problem_reader.specs.Inner.ProblemReading.{problem_readers};
ghost use Rattle.pddl_problem_reader.specs.Inner.Slots.{slots_view, no_slots, fill, FillsPart, has_slot};
ghost use Rattle.pddl_problem_reader.specs.Inner.OnePass.{IsSectionBehind, ReadsPart, FillsTurn, HoldsFile};

use crate::init_texts::{init_item_behind, sign_behind};
use crate::object_texts::add_typed_names;
use crate::section::Slots;
use crate::section_reader::read_section;
use pddl_build::{set_found, set_list};
use pddl_file::{SectionKeyword, Seen, Stop, begin_file, end_behind, next_section, word_behind};
use pddl_formula::TypedList;
use pddl_items::{Item, is_word};
use pddl_problem::InitItem;
use pddl_scan::LONGEST;
use pddl_text::{NextItem, next_sign};
use pddl_token::{Name, TokenKind};
use std::alloc::{AllocError, Allocator};

/// The place behind a `(` and a keyword, where these stand next behind a place.
fn section_behind(text: &[u8], from: usize, keyword: &[u8]) -> Option<usize>
    requires short { length text.now ≤ LONGEST }
    requires keyword { folded keyword.now ≡ keyword.now }
    ensures section { (words : List PlacedWord) → LexedTo text.now words from → IfSome result (IsSectionBehind keyword.now text.now words) }
    ensures further { IfSome result (λ at. (from < at) × (at ≤ length text.now)) }
{
    let mut at = from;
    word_behind(text, &mut at, TokenKind::Open).ok()?;
    let found = word_behind(text, &mut at, TokenKind::Keyword).ok()?;
    if is_word(found, keyword) {
        Some(at)
    } else {
        None
    }
}

/// Puts an item of `:init` behind those before.
fn add_init<'a, B: Allocator>(
    inits: &mut Vec<InitItem<&'a B>, &'a B>,
    init: InitItem<&'a B>,
) -> Result<(), AllocError>
    ensures { OnOk result (map init_view inits.new.items ≡ map init_view inits.old.items ++ init_view init.entry ∷ []) }
{
    inits.push(init)?;
    Ok(())
}

/// Puts what the items up to the end of `:init` say into an empty list.
fn add_inits<'a, B: Allocator>(
    alloc: &'a B,
    inits: &mut Vec<InitItem<&'a B>, &'a B>,
    text: &[u8],
    at: &mut usize,
) -> Result<(), Stop>
    requires short { length text.now ≤ LONGEST }
    requires empty { inits.old.items ≡ [] }
    ensures inits { (words : List PlacedWord) → LexedTo text.now words at.old → OnOk result (ReadsPart SectionKeyword.Init (init (map init_view inits.new.items)) text.now words at.new) }
    ensures further { OnOk result ((at.old < at.new) × (at.new ≤ length text.now)) }
{
    let mut names = Vec::new(alloc);
    while next_sign(text, at, TokenKind::Open) {
        let init = init_item_behind(alloc, &mut names, text, at)?;
        add_init(inits, init)?;
    }
    sign_behind(text, at, TokenKind::Close)
}

/// Keeps what `:init` says, where that was read.
fn keep_inits<'a, B: Allocator>(
    slots: &mut Slots<&'a B>,
    inits: Vec<InitItem<&'a B>, &'a B>,
    read: Result<(), Stop>,
) -> Result<(), Stop>
    ensures read { OnOk result (IsOk read) }
    ensures kept { OnOk result (slots_view slots.new ≡ fill (slots_view slots.old) (init (map init_view inits.entry.items))) }
{
    read?;
    set_list(&mut slots.init, Ok(Some(inits)))?;
    Ok(())
}

/// Keeps what the section of `:init` says, whose items stand behind a place.
fn read_init<'a, B: Allocator>(
    alloc: &'a B,
    slots: &mut Slots<&'a B>,
    text: &[u8],
    at: &mut usize,
) -> Result<(), Stop>
    requires short { length text.now ≤ LONGEST }
    ensures init { (words : List PlacedWord) → LexedTo text.now words at.old
        → OnOk result ((inits : List InitValue) × ReadsPart SectionKeyword.Init (init inits) text.now words at.new × (slots_view slots.new ≡ fill (slots_view slots.old) (init inits))) }
    ensures further { OnOk result ((at.old < at.new) × (at.new ≤ length text.now)) }
{
    let mut inits = Vec::new(alloc);
    let read = add_inits(alloc, &mut inits, text, at);
    keep_inits(slots, inits, read)
}

/// Keeps the objects, where they were read.
fn keep_objects<'a, B: Allocator>(
    slots: &mut Slots<&'a B>,
    list: TypedList<&'a B>,
    read: Result<(), Stop>,
) -> Result<(), Stop>
    ensures read { OnOk result (IsOk read) }
    ensures kept { OnOk result (slots_view slots.new ≡ fill (slots_view slots.old) (objects (map typed_view list.entry.items))) }
{
    read?;
    set_found(&mut slots.objects, Ok(Some(list)))?;
    Ok(())
}

/// Keeps what the section of `:objects` says, whose items stand behind a place.
fn read_objects<'a, B: Allocator>(
    alloc: &'a B,
    slots: &mut Slots<&'a B>,
    text: &[u8],
    at: &mut usize,
) -> Result<(), Stop>
    requires short { length text.now ≤ LONGEST }
    ensures objects { (words : List PlacedWord) → LexedTo text.now words at.old
        → OnOk result ((xs : List TypedValue) × ReadsPart SectionKeyword.Objects (objects xs) text.now words at.new × (slots_view slots.new ≡ fill (slots_view slots.old) (objects xs))) }
    ensures further { OnOk result ((at.old < at.new) × (at.new ≤ length text.now)) }
{
    let mut found = TypedList::new(alloc);
    let read = add_typed_names(alloc, &mut found, text, at);
    keep_objects(slots, found, read)
}

/// Keeps what a section says that was read behind those seen, and answers which are seen then.
fn keep_section<'a, B: Allocator>(
    alloc: &'a B,
    slots: &mut Slots<&'a B>,
    seen: Seen,
    section: Item<'_, &'a B>,
) -> Result<Option<Seen>, Stop>
    ensures { IfOk result (λ next. (key : SectionKeyword) × FillsPart (turn problem_readers seen (item_view section.entry)) (slots_view slots.old) (slots_view slots.new) key × (next ≡ Some (with_seen seen key))) }
{
    let keyword = read_section(alloc, slots, seen, &section)?;
    Ok(Some(seen.with(keyword)))
}

/// Keeps what the section behind a place says, behind those seen, and answers which are seen then; nothing where the file's `)` comes.
fn read_turn<'a, B: Allocator>(
    alloc: &'a B,
    slots: &mut Slots<&'a B>,
    seen: Seen,
    text: &[u8],
    at: &mut usize,
) -> Result<Option<Seen>, Stop>
    requires short { length text.now ≤ LONGEST }
    ensures turn { (words : List PlacedWord) → LexedTo text.now words at.old
        → IfOk result (FillsTurn text.now words at.new seen (slots_view slots.old) (slots_view slots.new)) }
    ensures further { IfOk result (λ next. IfSome next (λ _. (at.old < at.new) × (at.new ≤ length text.now))) }
{
    match next_section(alloc, text, at)? {
        NextItem::Item(section) => keep_section(alloc, slots, seen, section),
        NextItem::End(Some(_)) => Ok(None),
        NextItem::End(None) => Err(Stop::Wrong),
    }
}

/// The same, where `:objects` is read group by group.
fn read_listed<'a, B: Allocator>(
    alloc: &'a B,
    slots: &mut Slots<&'a B>,
    seen: Seen,
    text: &[u8],
    at: &mut usize,
) -> Result<Option<Seen>, Stop>
    requires short { length text.now ≤ LONGEST }
    ensures turn { (words : List PlacedWord) → LexedTo text.now words at.old
        → IfOk result (FillsTurn text.now words at.new seen (slots_view slots.old) (slots_view slots.new)) }
    ensures further { IfOk result (λ next. IfSome next (λ _. (at.old < at.new) × (at.new ≤ length text.now))) }
{
    match section_behind(text, *at, b":objects") {
        Some(behind) if !seen.objects => {
            *at = behind;
            read_objects(alloc, slots, text, at)?;
            Ok(Some(seen.with(SectionKeyword::Objects)))
        }
        _ => read_turn(alloc, slots, seen, text, at),
    }
}

/// The same, where `:init` is read item by item too.
fn read_next<'a, B: Allocator>(
    alloc: &'a B,
    slots: &mut Slots<&'a B>,
    seen: Seen,
    text: &[u8],
    at: &mut usize,
) -> Result<Option<Seen>, Stop>
    requires short { length text.now ≤ LONGEST }
    ensures turn { (words : List PlacedWord) → LexedTo text.now words at.old
        → IfOk result (FillsTurn text.now words at.new seen (slots_view slots.old) (slots_view slots.new)) }
    ensures further { IfOk result (λ next. IfSome next (λ _. (at.old < at.new) × (at.new ≤ length text.now))) }
{
    match section_behind(text, *at, b":init") {
        Some(behind) if !seen.init => {
            *at = behind;
            read_init(alloc, slots, text, at)?;
            Ok(Some(seen.with(SectionKeyword::Init)))
        }
        _ => read_listed(alloc, slots, seen, text, at),
    }
}

/// Keeps what the sections behind a file's beginning say, of which none is missing, up to the text's end.
fn read_sections<'a, B: Allocator>(
    alloc: &'a B,
    slots: &mut Slots<&'a B>,
    text: &[u8],
    at: &mut usize,
) -> Result<(), Stop>
    requires short { length text.now ≤ LONGEST }
    requires empty { slots_view slots.old ≡ no_slots }
    ensures hold { (name : List ℕ) → HasBegun (codes "problem") name text.now [] at.old → OnOk result (HoldsFile name text.now (slots_view slots.new)) }
    ensures whole { OnOk result (first_missing (has_slot (slots_view slots.new)) required ≡ None) }
{
    let mut seen = Seen::nothing();
    while let Some(next) = read_next(alloc, slots, seen, text, at)? {
        seen = next;
    }
    end_behind(text, *at)?;
    match slots.first_missing() {
        None => Ok(()),
        Some(_) => Err(Stop::Wrong),
    }
}

/// Keeps what the sections of a file say that a text is, and answers its name.
pub fn read_file<'a, B: Allocator>(
    alloc: &'a B,
    slots: &mut Slots<&'a B>,
    text: &[u8],
) -> Result<Name<&'a B>, Stop>
    requires { slots_view slots.old ≡ no_slots }
    ensures hold { IfOk result (λ name. HoldsFile name text.now (slots_view slots.new)) }
    ensures whole { OnOk result (first_missing (has_slot (slots_view slots.new)) required ≡ None) }
{
    if text.len() > LONGEST {
        return Err(Stop::Wrong);
    }
    let mut at = 0;
    let name = begin_file(alloc, b"problem", text, &mut at)?;
    let read = read_sections(alloc, slots, text, &mut at);
    read.and(Ok(name))
}
