//! Sections of a problem read from items.

ghost use Rattle.std.specs.Prelude.{◌≡◌, [], Some, None, IfOk, IfErr, OnOk, map, option_map};
ghost use Rattle.pddl_items.specs.Items.{item_view, items_view};
ghost use Rattle.pddl_items.specs.ItemTrees.{item_tree, item_trees};
ghost use Rattle.pddl_items.specs.Inner.TreeReading.{name_at};
ghost use Rattle.pddl_formula.specs.Formulas.{formula_view};
ghost use Rattle.pddl_formula_reader.specs.Inner.Reading.{condition_at, only};
ghost use Rattle.pddl_sections.specs.Inner.Verdicts.{turn, verdict};
ghost use Rattle.pddl_sections.specs.Inner.Answers.{first_missing};
ghost use Rattle.pddl_file.specs.Inner.WordReading.{nothing_seen};
ghost use Rattle.pddl_file.specs.Inner.FileReading.{StopsAt, RefusesSections};
ghost use Rattle.pddl_problem_reader.specs.ProblemTexts.{required};
ghost use Rattle.pddl_problem_reader.specs.Inner.ProblemReading.{content_at, part_of, part_at, problem_readers};
ghost use Rattle.pddl_problem_reader.specs.Inner.Slots.{slots_view, no_slots, Fills, FillsPart, HoldVerdict, has_slot, Refuses};

use crate::section::Slots;
use pddl_build::{set_found, set_list};
use pddl_file::{FileFault, SectionKeyword, Seen, flags_of, head_keyword_of, keyword_of, refusal};
use pddl_formula::Formula;
use pddl_formula_reader::{condition_of, typed_names_of};
use pddl_init_reader::{inits_of, metric_of};
use pddl_items::{Item, name_of};
use pddl_sections::span_of;
use pddl_token::Name;
use std::alloc::{AllocError, Allocator};

/// The name of the domain that these items are, behind the keyword.
fn domain_of<'a, B: Allocator>(
    alloc: &'a B,
    items: &[Item<'_, &'a B>],
) -> Result<Option<Name<&'a B>>, AllocError>
    ensures { IfOk result (λ name. name ≡ only (map name_at (item_trees items.now))) }
{
    match items {
        [item] => name_of(alloc, item),
        _ => Ok(None),
    }
}

/// The goal that these items are, likewise.
fn goal_of<'a, B: Allocator>(
    alloc: &'a B,
    items: &[Item<'_, &'a B>],
) -> Result<Option<Formula<&'a B>>, AllocError>
    ensures { IfOk result (λ goal. option_map formula_view goal ≡ only (map condition_at (item_trees items.now))) }
{
    match items {
        [item] => condition_of(alloc, item),
        _ => Ok(None),
    }
}

/// Keeps what the items behind this keyword say; true exactly where they are a section.
fn read_content<'a, B: Allocator>(
    alloc: &'a B,
    slots: &mut Slots<&'a B>,
    keyword: SectionKeyword,
    items: &[Item<'_, &'a B>],
) -> Result<bool, AllocError>
    ensures { IfOk result (Fills (content_at (Some keyword) (item_trees items.now)) (slots_view slots.old) (slots_view slots.new)) }
{
    match keyword {
        SectionKeyword::Domain => set_found(&mut slots.domain, domain_of(alloc, items)),
        SectionKeyword::Requirements => set_list(&mut slots.requirements, flags_of(alloc, items)),
        SectionKeyword::Objects => set_found(&mut slots.objects, typed_names_of(alloc, items)),
        SectionKeyword::Init => set_list(&mut slots.init, inits_of(alloc, items)),
        SectionKeyword::Goal => set_found(&mut slots.goal, goal_of(alloc, items)),
        SectionKeyword::Metric => set_found(&mut slots.metric, metric_of(alloc, items)),
        SectionKeyword::Types
        | SectionKeyword::Constants
        | SectionKeyword::Predicates
        | SectionKeyword::Functions
        | SectionKeyword::Action => Ok(false),
    }
}

/// Keeps what the section of a list of these items says; true exactly where they are one.
fn read_list<'a, B: Allocator>(
    alloc: &'a B,
    slots: &mut Slots<&'a B>,
    items: &[Item<'_, &'a B>],
) -> Result<bool, AllocError>
    ensures { IfOk result (Fills (part_of (item_trees items.now)) (slots_view slots.old) (slots_view slots.new)) }
{
    let [head, rest @ ..] = items else {
        return Ok(false);
    };
    let Some(keyword) = head_keyword_of(head) else {
        return Ok(false);
    };
    read_content(alloc, slots, keyword, rest)
}

/// Keeps what the section that an item is says; true exactly where it is one.
fn read_item<'a, B: Allocator>(
    alloc: &'a B,
    slots: &mut Slots<&'a B>,
    item: &Item<'_, &'a B>,
) -> Result<bool, AllocError>
    ensures { IfOk result (Fills (part_at (item_tree item.now)) (slots_view slots.old) (slots_view slots.new)) }
{
    match item {
        Item::List(items, _) => read_list(alloc, slots, items),
        Item::Word(_) => Ok(false),
    }
}

/// Keeps what the section that an item is says behind those of the keywords seen, and answers its keyword.
pub fn read_section<'a, B: Allocator>(
    alloc: &'a B,
    slots: &mut Slots<&'a B>,
    seen: Seen,
    item: &Item<'_, &'a B>,
) -> Result<SectionKeyword, FileFault>
    ensures fits { IfOk result (FillsPart (turn problem_readers seen (item_view item.now)) (slots_view slots.old) (slots_view slots.new)) }
    ensures stops { IfErr result (λ fault. StopsAt fault (turn problem_readers seen (item_view item.now))) }
{
    let Some(keyword) = keyword_of(item) else {
        return Err(refusal(item));
    };
    if seen.has(keyword) {
        let span = span_of(item);
        return Err(FileFault::Twice { keyword, span });
    }
    if !read_item(alloc, slots, item)? {
        return Err(refusal(item));
    }
    Ok(keyword)
}

/// Keeps what the sections that some items are say, none of which repeats another.
fn read_sections<'a, B: Allocator>(
    alloc: &'a B,
    slots: &mut Slots<&'a B>,
    items: &[Item<'_, &'a B>],
) -> Result<(), FileFault>
    ensures hold { OnOk result (slots_view slots.old ≡ no_slots → HoldVerdict (slots_view slots.new) (verdict problem_readers nothing_seen [] (items_view items.now))) }
    ensures refused { IfErr result (λ fault. RefusesSections fault (verdict problem_readers nothing_seen [] (items_view items.now))) }
{
    let mut seen = Seen::nothing();
    for item in items {
        let keyword = read_section(alloc, slots, seen, item)?;
        seen = seen.with(keyword);
    }
    Ok(())
}

/// Keeps what the sections that some items are say, none of which repeats another, and none of which is missing.
fn read_file<'a, B: Allocator>(
    alloc: &'a B,
    slots: &mut Slots<&'a B>,
    items: &[Item<'_, &'a B>],
) -> Result<(), FileFault>
    ensures hold { OnOk result (slots_view slots.old ≡ no_slots → HoldVerdict (slots_view slots.new) (verdict problem_readers nothing_seen [] (items_view items.now))) }
    ensures whole { OnOk result (first_missing (has_slot (slots_view slots.new)) required ≡ None) }
    ensures refused { IfErr result (λ fault. slots_view slots.old ≡ no_slots → Refuses fault (verdict problem_readers nothing_seen [] (items_view items.now))) }
{
    read_sections(alloc, slots, items)?;
    match slots.first_missing() {
        Some(keyword) => Err(FileFault::Missing { keyword }),
        None => Ok(()),
    }
}

/// The sections that some items spell, none of which repeats another, and none of which is missing of the domain, `:init` and
/// the goal.
pub fn sections_of<'a, B: Allocator>(
    alloc: &'a B,
    items: &[Item<'_, &'a B>],
) -> Result<Slots<&'a B>, FileFault>
    ensures hold { IfOk result (λ slots. HoldVerdict (slots_view slots) (verdict problem_readers nothing_seen [] (items_view items.now))) }
    ensures whole { IfOk result (λ slots. first_missing (has_slot (slots_view slots)) required ≡ None) }
    ensures refused { IfErr result (λ fault. Refuses fault (verdict problem_readers nothing_seen [] (items_view items.now))) }
{
    let mut slots = Slots::nothing();
    let read = read_file(alloc, &mut slots, items);
    read.and(Ok(slots))
}
