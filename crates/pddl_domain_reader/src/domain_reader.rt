//! Domains read from texts.

ghost use Rattle.std.specs.Prelude.{◌≡◌, ◌≢◌, ◌≤◌, ℕ, List, [], Some, length, IfOk, IfErr, MatchResult};
ghost use Rattle.pddl_items.specs.Items.{items_view};
ghost use Rattle.pddl_scan.specs.declared.fault.TextFault.TheVariants.{Memory};
ghost use Rattle.pddl_file.specs.declared.fault.FileFault.{FileFault};
ghost use Rattle.pddl_file.specs.declared.fault.FileFault.TheVariants.{Text};
ghost use Rattle.pddl_file.specs.Inner.FileReading.{RefusesSections, RefusesFile};
ghost use Rattle.pddl_file.specs.Places.{file_place};
ghost use Rattle.pddl_domain.specs.Domains.{DomainValue, domain_view};
ghost use Rattle.pddl_domain_reader.specs.DomainTexts.{SpellsDomain, DomainStands};
ghost use Rattle.pddl_domain_reader.specs.Inner.DomainReading.{domain_of};
ghost use Rattle.pddl_domain_reader.specs.Inner.Sections.{domain_verdict, AddsParts, domain_answer, AnswersDomain};

use crate::one_pass::read_sections;
use crate::section_reader::add_sections;
use pddl_domain::{DeclaredTypes, Domain};
use pddl_file::{FileFault, Stop, begin_file};
use pddl_formula::TypedList;
use pddl_hash::Hashed;
use pddl_items::Item;
use pddl_scan::{LONGEST, TextFault};
use pddl_sections::open_file;
use pddl_text::items_of;
use pddl_token::Name;
use std::alloc::Allocator;

/// The domain of this name that has nothing.
fn empty_domain<'a, B: Allocator>(alloc: &'a B, hashed: Hashed, name: Name<&'a B>) -> Domain<&'a B>
    ensures { domain_view result ≡ domain_of name.entry [] }
{
    Domain {
        name,
        requirements: Vec::new(alloc),
        types: DeclaredTypes::new(alloc),
        constants: TypedList::new(alloc),
        predicates: Vec::new(alloc),
        functions: Vec::new(alloc),
        actions: Vec::new(alloc),
        hashed,
    }
}

/// The domain of this name whose sections some items are.
fn domain_of<'a, B: Allocator>(
    alloc: &'a B,
    hashed: Hashed,
    name: Name<&'a B>,
    sections: &[Item<'_, &'a B>],
) -> Result<Domain<&'a B>, FileFault>
    ensures domain { IfOk result (λ domain. AddsParts (items_view sections.now) (domain_of name.entry []) (domain_view domain)) }
    ensures refused { IfErr result (λ fault. RefusesSections fault (domain_verdict (items_view sections.now))) }
{
    let mut domain = empty_domain(alloc, hashed, name);
    let added = add_sections(alloc, &mut domain, sections);
    added.and(Ok(domain))
}

/// The domain that some items are.
fn domain_at<'a, B: Allocator>(
    alloc: &'a B,
    hashed: Hashed,
    items: &[Item<'_, &'a B>],
) -> Result<Domain<&'a B>, FileFault>
    ensures domain { IfOk result (λ domain. AnswersDomain (domain_view domain) (items_view items.now)) }
    ensures refused { IfErr result (λ fault. RefusesFile fault (domain_answer (items_view items.now))) }
{
    let opening = match open_file(alloc, b"domain", items)? {
        Ok(opening) => opening,
        Err(span) => return Err(FileFault::Head { span }),
    };
    domain_of(alloc, hashed, opening.name, opening.sections)
}

/// The domain that a text spells, in one pass over it.
fn read_once<'a, B: Allocator>(alloc: &'a B, text: &[u8]) -> Result<Domain<&'a B>, Stop>
    ensures { IfOk result (λ domain. SpellsDomain (domain_view domain) text.now) }
{
    if text.len() > LONGEST {
        return Err(Stop::Wrong);
    }
    let mut at = 0;
    let name = begin_file(alloc, b"domain", text, &mut at)?;
    let mut domain = empty_domain(alloc, Hashed::of(text), name);
    let read = read_sections(alloc, &mut domain, text, &mut at);
    read.and(Ok(domain))
}

/// The domain that a text spells, by its items, or else its first fault.
fn read_whole<'a, B: Allocator>(alloc: &'a B, text: &[u8]) -> Result<Domain<&'a B>, FileFault>
    ensures domain { IfOk result (λ domain. SpellsDomain (domain_view domain) text.now) }
    ensures only { (domain : DomainValue) → SpellsDomain domain text.now
        → MatchResult result (λ found. domain_view found ≡ domain) (λ fault. fault ≡ Text Memory) }
    ensures fault { IfErr result (λ fault. DomainStands fault text.now) }
{
    let items = items_of(alloc, text)?;
    domain_at(alloc, Hashed::of(text), &items)
}

/// The domain that a text spells: `(define (domain NAME) section*)`, with sections of requirements, types, constants,
/// predicates, functions and actions, and comments and blanks between (Kovacs, BNF definition of PDDL 3.1; that sections
/// stand in any order, and which features are left out, is own). Letter case does not count: names are in lower case. Each
/// list keeps the order of the file.
///
/// # Errors
///
/// - [`FileFault::Text`]: those of [`items_of`]: memory, the limit of length, and the faults of tokens and lists.
/// - [`FileFault::Head`]: the text's items are no single list that begins so.
/// - At the first section that fits no rule or repeats an earlier one, in the order of the file: [`FileFault::Twice`] where
///   its keyword, which is not `:action`, stood before; else [`FileFault::Unsupported`] where a list in it is refused by
///   name; else [`FileFault::Section`].
pub fn read_domain<'a, B: Allocator>(alloc: &'a B, text: &[u8]) -> Result<Domain<&'a B>, FileFault>
    // What is answered is the domain that the text spells.
    ensures domain { IfOk result (λ domain. SpellsDomain (domain_view domain) text.now) }
    // A domain that spells the text is answered.
    ensures only { (domain : DomainValue) → SpellsDomain domain text.now
        → MatchResult result (λ found. domain_view found ≡ domain) (λ fault. fault ≡ Text Memory) }
    // What is wrong stands in the text.
    ensures fault { IfErr result (λ fault. DomainStands fault text.now) }
{
    match read_once(alloc, text) {
        Ok(domain) => Ok(domain),
        Err(Stop::Memory) => Err(FileFault::Text(TextFault::Memory)),
        Err(Stop::Wrong) => read_whole(alloc, text),
    }
}

/// At most one domain spells a text.
pub fn one_domain()
    ensures { (text : List ℕ) (domain other : DomainValue) → SpellsDomain domain text → SpellsDomain other text → domain ≡ other }
{}

/// A text has at most one fault, neither of two being want of memory.
pub fn one_domain_fault()
    ensures { (text : List ℕ) (fault other : FileFault) → DomainStands fault text → DomainStands other text
        → fault ≢ Text Memory → other ≢ Text Memory → fault ≡ other }
{}

/// A fault that has a place stands in its text, and before the limit of length.
pub fn domain_fault_in_text()
    ensures { (text : List ℕ) (fault : FileFault) (at : ℕ) → DomainStands fault text → file_place fault ≡ Some at
        → (at ≤ length text) × (at ≤ LONGEST) }
{}

/// A text that a domain spells has no fault: what may be answered beside the domain is want of memory alone.
pub fn no_fault_in_domain()
    ensures { (text : List ℕ) (fault : FileFault) (domain : DomainValue) → DomainStands fault text → SpellsDomain domain text → fault ≡ Text Memory }
{}
