//! Linked plans.

ghost use Rattle.std.specs.Prelude.{◌≡◌, ◌<◌, [], ◌∷◌, ◌++◌, length, slice_get, Some, option_map, OnOk, OnErr};
ghost use Rattle.pddl_linked_plan.specs.StepParts.{lent_step};

use pddl_token::Fixed;
use std::alloc::{AllocError, Allocator};
use std::marker::Model;

/// A step of a linked plan, lent.
#[derive(Clone, Copy)]
pub struct LinkedStep<'s> {
    /// The number of its action, in the domain's order from 0.
    pub action: usize,
    /// The numbers of its objects, in the task's order from 0.
    pub objects: &'s [usize],
    /// Its moment, of which a step of a plain plan has none.
    pub moment: Option<Fixed>,
}

/// A step as it is held: its objects are those of all steps from a place up to another.
#[derive(Clone, Copy)]
pub(crate) struct StepPart {
    pub action: usize,
    pub start: usize,
    pub end: usize,
    pub moment: Option<Fixed>,
}

/// The steps of a linked plan, in file order.
///
/// Contracts see them as the list of their numbers. That they are linked to a task is `AreLinkedSteps`.
#[derive(Drop)]
pub struct Steps<'a, B: Allocator> {
    parts: Vec<StepPart, &'a B>,
    objects: Vec<usize, &'a B>,
}

impl<'a, B: Allocator> Model for Steps<'a, B> {
    ghost use Rattle.std.specs.Prelude.{List, map, length};
    ghost use Rattle.pddl_linked_plan.specs.LinkedSteps.{LinkedStepValue};
    ghost use Rattle.pddl_linked_plan.specs.StepParts.{step_in, AreWithin};

    ghost Value = { List LinkedStepValue };

    ghost view = { λ s. map (step_in s.objects.items) s.parts.items };

    ghost invariant = { λ s. AreWithin (length s.objects.items) s.parts.items };
}

impl<'a, B: Allocator> Steps<'a, B> {
    /// No steps.
    pub fn new(alloc: &'a B) -> Steps<'a, B>
        ensures { result ≡ [] }
    {
        Steps {
            parts: Vec::new(alloc),
            objects: Vec::new(alloc),
        }
    }

    /// How many steps there are.
    pub fn len(&self) -> usize
        ensures { result ≡ length self.now }
    {
        self.parts.len()
    }

    /// The step of a number, or `None` past the last.
    pub fn get(&self, number: usize) -> Option<LinkedStep<'_>>
        ensures { option_map lent_step result ≡ slice_get self.now number }
    {
        match self.parts.get(number) {
            Some(part) => Some(LinkedStep {
                action: part.action,
                objects: &self.objects[part.start..part.end],
                moment: part.moment,
            }),
            None => None,
        }
    }

    /// The step of a number.
    pub fn step(&self, number: usize) -> LinkedStep<'_>
        requires { number < length self.now }
        ensures { Some (lent_step result) ≡ slice_get self.now number }
    {
        let part = self.parts[number];
        LinkedStep {
            action: part.action,
            objects: &self.objects[part.start..part.end],
            moment: part.moment,
        }
    }

    /// Adds a step behind the others.
    ///
    /// Fails where memory for it is refused; the steps are then as they were.
    pub fn push(
        &mut self,
        action: usize,
        objects: &[usize],
        moment: Option<Fixed>,
    ) -> Result<(), AllocError>
        ensures added { OnOk result (self.new ≡ self.old ++ record { action = action; objects = objects.now; moment = moment } ∷ []) }
        ensures refused { OnErr result (self.new ≡ self.old) }
    {
        let start = self.objects.len();
        self.objects.extend_from_slice(objects)?;
        let end = self.objects.len();
        self.parts.push(StepPart {
            action,
            start,
            end,
            moment,
        })?;
        Ok(())
    }
}
