//! What the sections of a problem that stood said.

ghost use Rattle.std.specs.Prelude.{◌≡◌};
ghost use Rattle.pddl_sections.specs.Inner.Answers.{first_missing};
ghost use Rattle.pddl_problem_reader.specs.ProblemTexts.{required};
ghost use Rattle.pddl_problem_reader.specs.Inner.Slots.{slots_view, no_slots, has_slot};

use pddl_file::SectionKeyword;
use pddl_formula::{Formula, TypedList};
use pddl_problem::{InitItem, Metric};
use pddl_token::Name;
use std::alloc::Allocator;

/// The sections that stood, each at most once.
#[derive(Drop)]
pub struct Slots<A: Allocator> {
    pub domain: Option<Name<A>>,
    pub requirements: Option<Vec<Name<A>, A>>,
    pub objects: Option<TypedList<A>>,
    pub init: Option<Vec<InitItem<A>, A>>,
    pub goal: Option<Formula<A>>,
    pub metric: Option<Metric<A>>,
}

impl<A: Allocator> Slots<A> {
    /// No section stood.
    pub fn nothing() -> Slots<A>
        ensures { slots_view result ≡ no_slots }
    {
        Slots {
            domain: None,
            requirements: None,
            objects: None,
            init: None,
            goal: None,
            metric: None,
        }
    }

    /// The first section that is missing of the domain, `:init` and the goal.
    pub fn first_missing(&self) -> Option<SectionKeyword>
        ensures { result ≡ first_missing (has_slot (slots_view self.now)) required }
    {
        if self.domain.is_none() {
            Some(SectionKeyword::Domain)
        } else if self.init.is_none() {
            Some(SectionKeyword::Init)
        } else if self.goal.is_none() {
            Some(SectionKeyword::Goal)
        } else {
            None
        }
    }
}
