//! Problems read from texts.

ghost use Rattle.std.specs.Prelude.{◌≡◌, ◌≢◌, ◌≤◌, ℕ, List, Some, None, Ok, IfOk, IfErr, OnOk, MatchResult, length, option_map, codes};
ghost use Rattle.pddl_items.specs.Items.{items_view};
ghost use Rattle.pddl_scan.specs.declared.fault.TextFault.TheVariants.{Memory};
ghost use Rattle.pddl_sections.specs.Inner.Answers.{first_missing, file_answer};
ghost use Rattle.pddl_file.specs.declared.fault.FileFault.{FileFault};
ghost use Rattle.pddl_file.specs.declared.fault.FileFault.TheVariants.{Text};
ghost use Rattle.pddl_file.specs.Inner.FileReading.{RefusesFile};
ghost use Rattle.pddl_file.specs.Places.{file_place};
ghost use Rattle.pddl_problem.specs.Problems.{ProblemValue, problem_view};
ghost use Rattle.pddl_problem_reader.specs.ProblemTexts.{required, AreProblem, SpellsProblem, ProblemStands};
ghost use Rattle.pddl_problem_reader.specs.Inner.ProblemReading.{problem_readers};
ghost use Rattle.pddl_problem_reader.specs.Inner.Slots.{slots_view, or_nothing, MakesUp, has_slot};

use crate::one_pass::read_file;
use crate::section::Slots;
use crate::section_reader::sections_of;
use pddl_file::{FileFault, Stop};
use pddl_formula::TypedList;
use pddl_hash::Hashed;
use pddl_items::Item;
use pddl_problem::Problem;
use pddl_scan::{LONGEST, TextFault};
use pddl_sections::open_file;
use pddl_text::items_of;
use pddl_token::Name;
use std::alloc::Allocator;

/// What a section lists, or nothing where it did not stand.
fn or_nothing<'a, T, B: Allocator>(alloc: &'a B, listed: Option<Vec<T, &'a B>>) -> Vec<T, &'a B>
    ensures { result.items ≡ or_nothing (option_map (λ v. v.items) listed.entry) }
{
    match listed {
        Some(values) => values,
        None => Vec::new(alloc),
    }
}

/// The objects that a section lists, or none where it did not stand.
fn objects_or_none<'a, B: Allocator>(
    alloc: &'a B,
    listed: Option<TypedList<&'a B>>,
) -> TypedList<&'a B>
    ensures { result.items ≡ or_nothing (option_map (λ v. v.items) listed.entry) }
{
    match listed {
        Some(objects) => objects,
        None => TypedList::new(alloc),
    }
}

/// The problem of this name that the sections make up, none of which is missing.
fn problem_by<'a, B: Allocator>(
    alloc: &'a B,
    hashed: Hashed,
    name: Name<&'a B>,
    slots: Slots<&'a B>,
) -> Problem<&'a B>
    requires { first_missing (has_slot (slots_view slots)) required ≡ None }
    ensures { MakesUp (slots_view slots.entry) name.entry (problem_view result) }
{
    Problem {
        name,
        domain: slots.domain.unwrap(),
        requirements: or_nothing(alloc, slots.requirements),
        objects: objects_or_none(alloc, slots.objects),
        init: slots.init.unwrap(),
        goal: slots.goal.unwrap(),
        metric: slots.metric,
        hashed,
    }
}

/// The problem that some items are.
fn problem_of<'a, B: Allocator>(
    alloc: &'a B,
    hashed: Hashed,
    items: &[Item<'_, &'a B>],
) -> Result<Problem<&'a B>, FileFault>
    ensures problem { IfOk result (λ problem. AreProblem (problem_view problem) (items_view items.now)) }
    ensures refused { IfErr result (λ fault. RefusesFile fault (file_answer problem_readers (codes "problem") required (items_view items.now))) }
{
    let opening = match open_file(alloc, b"problem", items)? {
        Ok(opening) => opening,
        Err(span) => return Err(FileFault::Head { span }),
    };
    let slots = sections_of(alloc, opening.sections)?;
    Ok(problem_by(alloc, hashed, opening.name, slots))
}

/// The problem, whose name and sections were read.
fn if_read<'a, B: Allocator>(
    alloc: &'a B,
    hashed: Hashed,
    name: Result<Name<&'a B>, Stop>,
    slots: Slots<&'a B>,
) -> Result<Problem<&'a B>, Stop>
    requires { OnOk name (first_missing (has_slot (slots_view slots)) required ≡ None) }
    ensures { IfOk result (λ problem. (n : List ℕ) × (name.entry ≡ Ok n) × MakesUp (slots_view slots.entry) n (problem_view problem)) }
{
    Ok(problem_by(alloc, hashed, name?, slots))
}

/// The problem that a text spells, in one pass over it.
fn read_once<'a, B: Allocator>(alloc: &'a B, text: &[u8]) -> Result<Problem<&'a B>, Stop>
    ensures { IfOk result (λ problem. SpellsProblem (problem_view problem) text.now) }
{
    let mut slots = Slots::nothing();
    let name = read_file(alloc, &mut slots, text);
    if_read(alloc, Hashed::of(text), name, slots)
}

/// The problem that a text spells, by its items, or else its first fault.
fn read_whole<'a, B: Allocator>(alloc: &'a B, text: &[u8]) -> Result<Problem<&'a B>, FileFault>
    ensures problem { IfOk result (λ problem. SpellsProblem (problem_view problem) text.now) }
    ensures only { (problem : ProblemValue) → SpellsProblem problem text.now
        → MatchResult result (λ found. problem_view found ≡ problem) (λ fault. fault ≡ Text Memory) }
    ensures fault { IfErr result (λ fault. ProblemStands fault text.now) }
{
    let items = items_of(alloc, text)?;
    problem_of(alloc, Hashed::of(text), &items)
}

/// The problem that a text spells: one list `(define (problem NAME) section*)`, letter case aside (Kovacs, BNF definition of
/// PDDL 3.1, `<problem>`, without constraints and lengths; that sections stand in any order, each at most once, is own).
/// `:domain`, `:init` and `:goal` must stand; a section of another keyword that is absent is read as an empty one.
///
/// # Errors
///
/// The first of these that the text has, or want of memory, which is [`FileFault::Text`] too:
///
/// - [`FileFault::Text`]: those of [`items_of`]: the limit of length, and the faults of tokens and lists.
/// - [`FileFault::Head`]: the text's items are no such list.
/// - [`FileFault::Twice`], [`FileFault::Unsupported`], [`FileFault::Section`]: the first section that is wrong: its keyword
///   stood before; else it fits no rule, and has a list that is refused by name; else it fits no rule.
/// - [`FileFault::Missing`]: the first of `:domain`, `:init`, `:goal` that does not stand.
pub fn read_problem<'a, B: Allocator>(
    alloc: &'a B,
    text: &[u8],
) -> Result<Problem<&'a B>, FileFault>
    // What is answered is the problem that the text spells.
    ensures problem { IfOk result (λ problem. SpellsProblem (problem_view problem) text.now) }
    // A problem that spells the text is answered.
    ensures only { (problem : ProblemValue) → SpellsProblem problem text.now
        → MatchResult result (λ found. problem_view found ≡ problem) (λ fault. fault ≡ Text Memory) }
    // What is wrong stands in the text.
    ensures fault { IfErr result (λ fault. ProblemStands fault text.now) }
{
    match read_once(alloc, text) {
        Ok(problem) => Ok(problem),
        Err(Stop::Memory) => Err(FileFault::Text(TextFault::Memory)),
        Err(Stop::Wrong) => read_whole(alloc, text),
    }
}

/// At most one problem spells a text.
pub fn one_problem()
    ensures { (text : List ℕ) (problem other : ProblemValue) → SpellsProblem problem text → SpellsProblem other text → problem ≡ other }
{}

/// A text has at most one fault, neither of two being want of memory.
pub fn one_problem_fault()
    ensures { (text : List ℕ) (fault other : FileFault) → ProblemStands fault text → ProblemStands other text
        → fault ≢ Text Memory → other ≢ Text Memory → fault ≡ other }
{}

/// A fault that has a place stands in its text, and before the limit of length.
pub fn problem_fault_in_text()
    ensures { (text : List ℕ) (fault : FileFault) (at : ℕ) → ProblemStands fault text → file_place fault ≡ Some at
        → (at ≤ length text) × (at ≤ LONGEST) }
{}

/// A text that a problem spells has no fault: what may be answered beside the problem is want of memory alone.
pub fn no_fault_in_problem()
    ensures { (text : List ℕ) (fault : FileFault) (problem : ProblemValue) → ProblemStands fault text → SpellsProblem problem text → fault ≡ Text Memory }
{}
