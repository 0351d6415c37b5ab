//! Plans in making.

ghost use Rattle.std.specs.Prelude.{◌≡◌, ◌<◌, [], ◌∷◌, Some, length, map, slice_get, nat_eq, nat_lt, IfOk, OnOk, OnErr};
ghost use Rattle.pddl_token.specs.Names.{name_of};
ghost use Rattle.pddl_plan.specs.Building.{nothing_built, AddsWord, with_names, without_names, ended, ended_at};
ghost use Rattle.pddl_plan.specs.Built.{IsBuilt};
ghost use Rattle.pddl_plan.specs.Plans.{step_of_names, built_plan, plan_view};

use crate::name_list::{NameList, part_of, start_of};
use crate::plan::Plan;
use crate::step::Step;
use pddl_hash::Hashed;
use pddl_token::{Fixed, Name};
use std::alloc::{AllocError, Allocator};
use std::marker::Model;

/// A plan in making: names are added one by one, and a step is ended behind its last name.
///
/// The names of all steps stand side by side in one buffer. Beside its bytes a name takes four for its end, a step four for that
/// of its names, and a timed one eight for its moment. What is not ended is of no step.
#[derive(Drop)]
pub struct PlanBuilder<A: Allocator> {
    names: NameList<A>,
    ends: Vec<u32, A>,
    moments: Vec<Fixed, A>,
}

impl<A: Allocator> Model for PlanBuilder<A> {
    ghost use Rattle.std.specs.Prelude.{drop};
    ghost use Rattle.pddl_plan.specs.Cuts.{cut, last_end};
    ghost use Rattle.pddl_plan.specs.Building.{Building, AreStepsIn};

    ghost Value = { Building };

    ghost view = { λ p. record { moments = p.moments.items; steps = cut p.names 0 p.ends.items; names = drop (last_end 0 p.ends.items) p.names } };

    ghost invariant = { λ p. AreStepsIn p.names p.ends.items p.moments.items };
}

impl<'a, B: Allocator> PlanBuilder<&'a B> {
    /// The plan without steps.
    pub fn new(alloc: &'a B) -> PlanBuilder<&'a B>
        ensures { result ≡ nothing_built }
    {
        PlanBuilder {
            names: NameList::new(alloc),
            ends: Vec::new(alloc),
            moments: Vec::new(alloc),
        }
    }
}

impl<A: Allocator> PlanBuilder<A> {
    /// How many steps are ended.
    pub fn len(&self) -> usize
        ensures value { result ≡ length self.now.steps }
        ensures built { IsBuilt self.now }
    {
        let _named = self.names.len();
        self.ends.len()
    }

    /// The step of a number, from 0.
    pub(crate) fn step(&self, number: usize) -> Step<'_, A>
        requires { number < length self.now.steps }
        ensures { Some result ≡ slice_get (map step_of_names self.now.steps) number }
    {
        let part = part_of(&self.ends, number);
        Step::new(&self.names, part.start, part.end)
    }

    /// The moment of the step of a number, from 0.
    pub(crate) fn moment(&self, number: usize) -> Option<Fixed>
        ensures { result ≡ slice_get self.now.moments number }
    {
        self.moments.get(number).copied()
    }

    /// How tables of what its steps speak of hash.
    pub(crate) fn hashed(&self) -> Hashed {
        self.names.hashed()
    }

    /// Adds the name that a word spells, in any case of its letters, to the step that is not ended, and answers whether it
    /// spells one. What is no name is not added.
    ///
    /// Fails where memory is refused; the names of a plan take at most 4294967295 bytes. The plan then stays as it is.
    pub fn push_word(&mut self, word: &[u8]) -> Result<bool, AllocError>
        ensures added { IfOk result (λ is. AddsWord is (name_of word.now) self.old self.new) }
        ensures kept { OnErr result (self.new ≡ self.old) }
    {
        self.names.push_word(word)
    }

    /// Adds a name to the step that is not ended.
    ///
    /// Fails as [`PlanBuilder::push_word`] does.
    pub fn push_name<B: Allocator>(&mut self, name: &Name<B>) -> Result<(), AllocError>
        ensures added { OnOk result (self.new ≡ with_names self.old (name.now ∷ [])) }
        ensures kept { OnErr result (self.new ≡ self.old) }
    {
        self.push_word(name.as_bytes())?;
        Ok(())
    }

    /// Whether none of the steps that are ended has a moment.
    pub fn is_plain(&self) -> bool
        ensures { result ≡ nat_eq (length self.now.moments) 0 }
    {
        self.moments.len() == 0
    }

    /// Whether each of the steps that are ended has a moment.
    pub fn is_timed(&self) -> bool
        ensures { result ≡ nat_eq (length self.now.moments) (length self.now.steps) }
    {
        let _named = self.names.len();
        self.moments.len() == self.ends.len()
    }

    /// Whether names were added since the last step was ended.
    pub fn has_names(&self) -> bool
        ensures { result ≡ nat_lt 0 (length self.now.names) }
    {
        self.names.len() > start_of(&self.ends, self.ends.len())
    }

    /// Leaves out the names that were added since the last step was ended.
    pub fn give_up_step(&mut self)
        ensures { self.new ≡ without_names self.old }
    {
        let end = start_of(&self.ends, self.ends.len());
        self.names.truncate(end);
    }

    /// Ends the step of the names that were added since the one before. None has a moment.
    ///
    /// Fails where memory is refused; the plan then stays as it is.
    pub fn end_step(&mut self) -> Result<(), AllocError>
        requires named { 0 < length self.old.names }
        requires plain { self.old.moments ≡ [] }
        ensures ended { OnOk result (self.new ≡ ended self.old) }
        ensures kept { OnErr result (self.new ≡ self.old) }
    {
        let end = self.names.len() as u32;
        self.ends.push(end)?;
        Ok(())
    }

    /// Ends the step of the names that were added since the one before, which happens at a moment, as all before it do.
    ///
    /// Fails where memory is refused; the plan then stays as it is.
    pub fn end_step_at(&mut self, moment: Fixed) -> Result<(), AllocError>
        requires named { 0 < length self.old.names }
        requires timed { length self.old.moments ≡ length self.old.steps }
        ensures ended { OnOk result (self.new ≡ ended_at moment self.old) }
        ensures kept { OnErr result (self.new ≡ self.old) }
    {
        let _in_range = moment.billionths();
        let end = self.names.len() as u32;
        self.moments.reserve(1)?;
        self.ends.push(end)?;
        self.moments.push(moment)?;
        Ok(())
    }

    /// The plan of the steps that are ended: a timed one where they have moments, else a plain one.
    pub fn finish(self) -> Plan<A>
        ensures { plan_view result ≡ built_plan self }
    {
        Plan { parts: self }
    }
}
