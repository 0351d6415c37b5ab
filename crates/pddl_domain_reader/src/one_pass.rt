//! Sections of a domain read in one pass over its text, so that no more of the text than one section is held as items.
//!
//! What is answered is right. Where something is wrong, what it is shows only in the whole text, and is not looked for here.

ghost use Rattle.std.specs.Prelude.{◌≡◌, ◌<◌, ◌≤◌, [], Some, List, ℕ, length, IfOk, IfSome, OnOk, codes};
ghost use Rattle.pddl_token.specs.Spelling.{PlacedWord};
ghost use Rattle.pddl_scan.specs.Scanning.{LexedTo};
ghost use Rattle.pddl_items.specs.Items.{item_view};
ghost use Rattle.pddl_sections.specs.Inner.Verdicts.{turn};
ghost use Rattle.pddl_file.specs.Inner.Begun.{HasBegun};
ghost use Rattle.pddl_file.specs.Inner.WordReading.{with_seen};
ghost use Rattle.pddl_file.specs.declared.keyword.SectionKeyword.{SectionKeyword};
ghost use Rattle.pddl_domain.specs.Domains.{domain_view};
ghost use Rattle.pddl_domain_reader.specs.Inner.DomainReading.{domain_readers};
ghost use Rattle.pddl_domain_reader.specs.Inner.Sections.{AddsPart, AddsTurn, AddsFile};

use crate::section_reader::add_section;
use pddl_domain::Domain;
use pddl_file::{Seen, Stop, end_behind, next_section};
use pddl_items::Item;
use pddl_scan::LONGEST;
use pddl_text::NextItem;
use std::alloc::Allocator;

/// Adds what a section says that was read behind those seen, and answers which are seen then.
fn keep_section<'a, B: Allocator>(
    alloc: &'a B,
    domain: &mut Domain<&'a B>,
    seen: Seen,
    section: Item<'_, &'a B>,
) -> Result<Option<Seen>, Stop>
    ensures { IfOk result (λ next. (key : SectionKeyword) × AddsPart (turn domain_readers seen (item_view section.entry)) (domain_view domain.old) (domain_view domain.new) key × (next ≡ Some (with_seen seen key))) }
{
    let keyword = add_section(alloc, domain, seen, &section)?;
    Ok(Some(seen.with(keyword)))
}

/// Adds what the section behind a place says, behind those seen, and answers which are seen then; nothing where the file's `)` comes.
fn read_turn<'a, B: Allocator>(
    alloc: &'a B,
    domain: &mut Domain<&'a B>,
    seen: Seen,
    text: &[u8],
    at: &mut usize,
) -> Result<Option<Seen>, Stop>
    requires short { length text.now ≤ LONGEST }
    ensures turn { (words : List PlacedWord) → LexedTo text.now words at.old
        → IfOk result (AddsTurn text.now words at.new seen (domain_view domain.old) (domain_view domain.new)) }
    ensures further { IfOk result (λ next. IfSome next (λ _. (at.old < at.new) × (at.new ≤ length text.now))) }
{
    match next_section(alloc, text, at)? {
        NextItem::Item(section) => keep_section(alloc, domain, seen, section),
        NextItem::End(Some(_)) => Ok(None),
        NextItem::End(None) => Err(Stop::Wrong),
    }
}

/// Adds what the sections behind a file's beginning say, up to the text's end.
pub fn read_sections<'a, B: Allocator>(
    alloc: &'a B,
    domain: &mut Domain<&'a B>,
    text: &[u8],
    at: &mut usize,
) -> Result<(), Stop>
    requires short { length text.now ≤ LONGEST }
    ensures { (name : List ℕ) → HasBegun (codes "domain") name text.now [] at.old → OnOk result (AddsFile name text.now (domain_view domain.old) (domain_view domain.new)) }
{
    let mut seen = Seen::nothing();
    while let Some(next) = read_turn(alloc, domain, seen, text, at)? {
        seen = next;
    }
    end_behind(text, *at)
}
