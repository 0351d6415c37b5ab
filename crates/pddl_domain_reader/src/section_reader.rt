//! Sections of a domain read from items.

ghost use Rattle.std.specs.Prelude.{◌≡◌, Some, IfOk, IfErr, OnOk};
ghost use Rattle.pddl_build.specs.Found.{AppendsFound};
ghost use Rattle.pddl_items.specs.Items.{item_view, items_view};
ghost use Rattle.pddl_items.specs.ItemTrees.{item_tree, item_trees};
ghost use Rattle.pddl_sections.specs.Inner.Verdicts.{turn};
ghost use Rattle.pddl_file.specs.Inner.FileReading.{StopsAt, RefusesSections};
ghost use Rattle.pddl_domain.specs.Domains.{domain_view};
ghost use Rattle.pddl_domain_reader.specs.Inner.DomainReading.{content_at, part_of, part_at, domain_readers};
ghost use Rattle.pddl_domain_reader.specs.Inner.Sections.{domain_verdict, Adds, AddsPart, AddsParts};

use pddl_build::{append_found, push_found};
use pddl_declaration_reader::{
    action_of, declared_functions_of, declared_predicates_of, declared_types_of,
};
use pddl_domain::{DeclaredTypes, Domain};
use pddl_file::{FileFault, SectionKeyword, Seen, flags_of, head_keyword_of, keyword_of, refusal};
use pddl_formula::TypedList;
use pddl_formula_reader::typed_names_of;
use pddl_items::Item;
use pddl_sections::span_of;
use std::alloc::{AllocError, Allocator};

/// Puts typed names behind those of a list, if there are some to put there; true exactly where there are.
///
/// Fails as the names failed, and where memory for the list is refused; the list is then as it was.
fn append_typed<A: Allocator>(
    list: &mut TypedList<A>,
    typed: Result<Option<TypedList<A>>, AllocError>,
) -> Result<bool, AllocError>
    ensures { AppendsFound list.old.items typed list.new.items result }
{
    let Some(typed) = typed? else {
        return Ok(false);
    };
    list.append(typed)?;
    Ok(true)
}

/// Puts declared types behind others, if there are some to put there; true exactly where there are.
///
/// Fails as the types failed, and where memory for them is refused; the others are then as they were.
fn append_types<A: Allocator>(
    list: &mut DeclaredTypes<A>,
    types: Result<Option<DeclaredTypes<A>>, AllocError>,
) -> Result<bool, AllocError>
    ensures { AppendsFound list.old.items types list.new.items result }
{
    let Some(types) = types? else {
        return Ok(false);
    };
    list.append(types)?;
    Ok(true)
}

/// Adds what the items behind this keyword say; true exactly where they are a section.
fn add_content<'a, B: Allocator>(
    alloc: &'a B,
    domain: &mut Domain<&'a B>,
    keyword: SectionKeyword,
    items: &[Item<'_, &'a B>],
) -> Result<bool, AllocError>
    ensures { IfOk result (Adds (content_at (Some keyword) (item_trees items.now)) (domain_view domain.old) (domain_view domain.new)) }
{
    match keyword {
        SectionKeyword::Requirements => {
            append_found(&mut domain.requirements, flags_of(alloc, items))
        }
        SectionKeyword::Types => append_types(&mut domain.types, declared_types_of(alloc, items)),
        SectionKeyword::Constants => {
            append_typed(&mut domain.constants, typed_names_of(alloc, items))
        }
        SectionKeyword::Predicates => {
            append_found(&mut domain.predicates, declared_predicates_of(alloc, items))
        }
        SectionKeyword::Functions => {
            append_found(&mut domain.functions, declared_functions_of(alloc, items))
        }
        SectionKeyword::Action => push_found(&mut domain.actions, action_of(alloc, items)),
        SectionKeyword::Domain
        | SectionKeyword::Objects
        | SectionKeyword::Init
        | SectionKeyword::Goal
        | SectionKeyword::Metric => Ok(false),
    }
}

/// Adds the section whose items, inside its parentheses, these are; true exactly where they are one.
fn add_list<'a, B: Allocator>(
    alloc: &'a B,
    domain: &mut Domain<&'a B>,
    items: &[Item<'_, &'a B>],
) -> Result<bool, AllocError>
    ensures { IfOk result (Adds (part_of (item_trees items.now)) (domain_view domain.old) (domain_view domain.new)) }
{
    let [head, rest @ ..] = items else {
        return Ok(false);
    };
    let Some(keyword) = head_keyword_of(head) else {
        return Ok(false);
    };
    add_content(alloc, domain, keyword, rest)
}

/// Adds the section that an item is; true exactly where it is one.
fn add_item<'a, B: Allocator>(
    alloc: &'a B,
    domain: &mut Domain<&'a B>,
    item: &Item<'_, &'a B>,
) -> Result<bool, AllocError>
    ensures { IfOk result (Adds (part_at (item_tree item.now)) (domain_view domain.old) (domain_view domain.new)) }
{
    match item {
        Item::List(items, _) => add_list(alloc, domain, items),
        Item::Word(_) => Ok(false),
    }
}

/// Adds the section that an item is behind those of the keywords seen, and answers its keyword.
pub fn add_section<'a, B: Allocator>(
    alloc: &'a B,
    domain: &mut Domain<&'a B>,
    seen: Seen,
    item: &Item<'_, &'a B>,
) -> Result<SectionKeyword, FileFault>
    ensures section { IfOk result (AddsPart (turn domain_readers seen (item_view item.now)) (domain_view domain.old) (domain_view domain.new)) }
    ensures refused { IfErr result (λ fault. StopsAt fault (turn domain_readers seen (item_view item.now))) }
{
    let Some(keyword) = keyword_of(item) else {
        return Err(refusal(item));
    };
    if seen.has(keyword) {
        let span = span_of(item);
        return Err(FileFault::Twice { keyword, span });
    }
    if !add_item(alloc, domain, item)? {
        return Err(refusal(item));
    }
    Ok(keyword)
}

/// Adds the sections that some items are, in their order.
pub fn add_sections<'a, B: Allocator>(
    alloc: &'a B,
    domain: &mut Domain<&'a B>,
    items: &[Item<'_, &'a B>],
) -> Result<(), FileFault>
    ensures sections { OnOk result (AddsParts (items_view items.now) (domain_view domain.old) (domain_view domain.new)) }
    ensures refused { IfErr result (λ fault. RefusesSections fault (domain_verdict (items_view items.now))) }
{
    let mut seen = Seen::nothing();
    for item in items {
        let keyword = add_section(alloc, domain, seen, item)?;
        seen = seen.with(keyword);
    }
    Ok(())
}
