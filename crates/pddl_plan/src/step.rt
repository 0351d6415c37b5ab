//! Steps of plans, lent.

ghost use Rattle.std.specs.Prelude.{◌≡◌, ◌<◌, Some, length, slice_get};

use crate::name_list::NameList;
use std::alloc::Allocator;
use std::marker::Model;

/// A step of a plan, lent: an action's name and the names of the objects that it is applied to, in order.
///
/// Contracts see it as these names.
#[derive(Drop)]
pub struct Step<'p, A: Allocator> {
    names: &'p NameList<A>,
    start: usize,
    end: usize,
}

impl<'p, A: Allocator> Model for Step<'p, A> {
    ghost use Rattle.std.specs.Prelude.{length, slice_range};
    ghost use Rattle.pddl_plan.specs.Plans.{StepValue, step_of_names};
    ghost use Rattle.pddl_plan.specs.StepParts.{IsStepPart};

    ghost Value = { StepValue };

    ghost view = { λ s. step_of_names (slice_range s.names.now s.start s.end) };

    ghost invariant = { λ s. IsStepPart s.start s.end (length s.names.now) };
}

impl<'p, A: Allocator> Step<'p, A> {
    ghost use Rattle.std.specs.Prelude.{slice_range};
    ghost use Rattle.pddl_plan.specs.Plans.{step_of_names};
    ghost use Rattle.pddl_plan.specs.StepParts.{IsStepPart};

    /// The step of the names from a place up to another.
    pub(crate) fn new(names: &'p NameList<A>, start: usize, end: usize) -> Step<'p, A>
        requires { IsStepPart start end (length names.now) }
        ensures { result ≡ step_of_names (slice_range names.now start end) }
    {
        Step { names, start, end }
    }

    /// The bytes of the action's name, in lower case.
    pub fn action(&self) -> &'p [u8]
        ensures { result.now ≡ self.now.action }
    {
        let names = self.names;
        names.get(self.start)
    }

    /// How many objects there are.
    pub fn arity(&self) -> usize
        ensures { result ≡ length self.now.objects }
    {
        self.end - self.start - 1
    }

    /// The bytes of the name of the object of a number, from 0, in lower case.
    pub fn object(&self, number: usize) -> &'p [u8]
        requires { number < length self.now.objects }
        ensures { slice_get self.now.objects number ≡ Some result.now }
    {
        let names = self.names;
        let _short = names.len();
        names.get(self.start + 1 + number)
    }
}
