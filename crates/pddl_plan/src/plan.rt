//! Plans: steps alone, or steps at moments.

ghost use Rattle.std.specs.Prelude.{◌≡◌, ◌<◌, Some, length, slice_get, IsTrue};
ghost use Rattle.pddl_plan.specs.Plans.{is_plan, plan_view, steps_of, moment_at};

use crate::plan_builder::PlanBuilder;
use crate::step::Step;
use pddl_hash::Hashed;
use pddl_token::Fixed;
use std::alloc::Allocator;

/// A plan, its steps in file order. All of them are plain, or each has a moment (own); a plan without steps is plain.
///
/// It is made by a [`PlanBuilder`], and lends its steps.
#[derive(Drop)]
pub struct Plan<A: Allocator> {
    pub(crate) parts: PlanBuilder<A>,
}

impl<A: Allocator> Plan<A> {
    /// How many steps there are.
    pub fn len(&self) -> usize
        ensures value { result ≡ length (steps_of (plan_view self.now)) }
        // It is one of the plans that texts can spell.
        ensures plan { IsTrue (is_plan (plan_view self.now)) }
    {
        self.parts.len()
    }

    /// The step of a number, from 0.
    pub fn step(&self, number: usize) -> Step<'_, A>
        requires { number < length (steps_of (plan_view self.now)) }
        ensures { Some result ≡ slice_get (steps_of (plan_view self.now)) number }
    {
        let _built = self.parts.len();
        self.parts.step(number)
    }

    /// The moment of the step of a number, from 0. A step of a plain plan has none, and each of a timed one has one.
    pub fn moment(&self, number: usize) -> Option<Fixed>
        ensures { result ≡ moment_at (plan_view self.now) number }
    {
        let _built = self.parts.len();
        self.parts.moment(number)
    }

    /// How tables of what its steps speak of hash: by a digest of their names.
    pub fn hashed(&self) -> Hashed {
        self.parts.hashed()
    }
}
