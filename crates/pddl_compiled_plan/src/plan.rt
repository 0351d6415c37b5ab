//! Linked plans whose steps can be executed.

ghost use Rattle.std.specs.Prelude.{◌≡◌, ◌<◌, ◌≤◌, ◌||◌, ℕ, length, OnOk};
ghost use Rattle.pddl_state.specs.Atoms.{AtomValue};
ghost use Rattle.pddl_happenings.specs.Steps.{IsFramed};
ghost use Rattle.pddl_compiled.specs.Views.{change_view, frame_view};
ghost use Rattle.pddl_evaluation.specs.Costs.{increases_of, most_increases};
ghost use Rattle.pddl_tables.specs.Lookups.{price_in};
ghost use Rattle.pddl_compiled_plan.specs.CompiledSteps.{form_in, form_step, action_reads, held_price, held_steps, held_goal, AreHeldFor};

use crate::action::{CompiledAction, UsedActions};
use pddl_compiled::{Condition, Frame};
use pddl_evaluation::{add_change_reads, add_fired, add_reads, is_true, spent};
use pddl_judge::Course;
use pddl_linked_plan::Steps;
use pddl_state::{Atom, AtomStore};
use pddl_tables::TaskPrices;
use std::alloc::{AllocError, Allocator};

/// A linked plan whose steps can be executed: a course of steps for the judge, over any store.
///
/// It borrows the steps of the plan, and holds the actions that they use and the goal by numbers, each compiled once, and the costs of functions. Of the task
/// that these are of it keeps nothing.
#[derive(Drop)]
pub struct CompiledPlan<'s, 'b, 'c, C: Allocator, D: Allocator> {
    alloc: &'c D,
    steps: &'s Steps<'b, C>,
    actions: UsedActions<'c, D>,
    goal: Condition<&'c D>,
    prices: TaskPrices<'c, D>,
    ghost held: { ∥ AreHeldFor steps.now actions.items ∥₁ },
    ghost framed: { (k : ℕ) → IsFramed (held_steps actions.items (price_in prices) steps.now k) },
}

/// An action by numbers, and the numbers of the objects that it is applied to.
#[derive(Clone, Copy)]
struct Applied<'p, D: Allocator> {
    action: &'p CompiledAction<D>,
    objects: &'p [usize],
}

/// An atom for others to be looked up in.
fn blank<'c, D: Allocator>(alloc: &'c D) -> Atom<&'c D> {
    Atom {
        predicate: 0,
        args: Vec::new(alloc),
    }
}

/// Puts the atoms that an action reads with objects into a set.
fn add_action_reads<'f, A: Allocator, B: Allocator, S: AtomStore<B>>(
    action: &'f CompiledAction<A>,
    frame: &'f Frame<'f>,
    atom: &mut Atom<B>,
    store: &mut S,
    into: &mut S::Set,
) -> Result<(), AllocError>
    requires { S.owns store.old into.old }
    ensures own { S.owns store.new into.new }
    ensures others_own { (t : S.Set) → S.owns store.old t → S.owns store.new t }
    ensures others { (t : S.Set) → S.owns store.old t → S.content store.new t ≡ S.content store.old t }
    ensures ok { OnOk result ((x : AtomValue) → S.content store.new into.new x ≡ (action_reads (form_in action.now) (frame_view frame.now) x || S.content store.old into.old x)) }
{
    add_reads(&action.precondition, frame, atom, store, into)?;
    add_change_reads(&action.effect, frame, atom, store, into)
}

impl<'s, 'b, 'c, C: Allocator, D: Allocator> CompiledPlan<'s, 'b, 'c, C, D> {
    ghost use Rattle.pddl_compiled_plan.specs.HeldPlans.{plan_steps, plan_course, plan_goal};

    /// The plan of some steps with what was compiled for them: each action that they use, the goal, and the costs of functions.
    pub fn of(
        alloc: &'c D,
        steps: &'s Steps<'b, C>,
        actions: UsedActions<'c, D>,
        goal: Condition<&'c D>,
        prices: TaskPrices<'c, D>,
    ) -> CompiledPlan<'s, 'b, 'c, C, D>
        requires held { AreHeldFor steps.now actions.items }
        requires framed { (k : ℕ) → IsFramed (held_steps actions.items (price_in prices) steps.now k) }
        ensures steps { plan_steps result ≡ steps.now }
        ensures course { plan_course result ≡ held_steps actions.entry.items (price_in prices.entry) steps.now }
        ensures goal { plan_goal result ≡ held_goal goal.entry }
    {
        CompiledPlan {
            alloc,
            steps,
            actions,
            goal,
            prices,
        }
    }

    /// The action of a step, and its objects.
    fn applied(&self, step: u32) -> Applied<'_, &'c D>
        requires { step < length (plan_steps self.now) }
        ensures step { plan_course self.now step ≡ form_step (held_price (price_in self.now.prices)) (form_in result.action.now) result.objects.now }
        ensures few { increases_of (change_view result.action.now.effect) ≤ most_increases }
    {
        let own = self.steps.step(step as usize);
        Applied {
            action: self.actions[own.action].as_ref().unwrap(),
            objects: own.objects,
        }
    }
}

/// A step's number is its place in the plan's file, from 0. What is answered of the goal and of each step is what was compiled for them.
///
/// Each call fails only where memory for the sets, or for the atom that is looked up in them, is refused.
impl<'s, 'b, 'c, C: Allocator, D: Allocator, S: AtomStore<&'c D>> Course<&'c D, S>
    for CompiledPlan<'s, 'b, 'c, C, D> {
    ghost use Rattle.std.specs.Prelude.{length};
    ghost use Rattle.pddl_compiled_plan.specs.HeldPlans.{plan_steps, plan_course, plan_goal};

    ghost count_of = { λ p. length (plan_steps p) };

    ghost steps_of = { plan_course };

    ghost goal_of = { plan_goal };

    ghost framed = { λ p. p.framed };

    fn goal_holds(&self, store: &S, state: &S::Set) -> Result<bool, AllocError> {
        let mut atom = blank(self.alloc);
        is_true(&self.goal, &Frame::Step(&[]), &mut atom, store, state)
    }

    fn holds(&self, step: u32, store: &S, state: &S::Set) -> Result<bool, AllocError> {
        let own = self.applied(step);
        let frame = Frame::Step(own.objects);
        let mut atom = blank(self.alloc);
        is_true(&own.action.precondition, &frame, &mut atom, store, state)
    }

    fn reads(&self, step: u32, store: &mut S) -> Result<S::Set, AllocError> {
        let own = self.applied(step);
        let frame = Frame::Step(own.objects);
        let mut atom = blank(self.alloc);
        let mut set = store.empty();
        let added = add_action_reads(own.action, &frame, &mut atom, store, &mut set);
        added.and(Ok(set))
    }

    fn fired(
        &self,
        step: u32,
        store: &mut S,
        state: &S::Set,
    ) -> Result<(S::Set, S::Set), AllocError> {
        let own = self.applied(step);
        let frame = Frame::Step(own.objects);
        let mut atom = blank(self.alloc);
        let mut adds = store.empty();
        let mut dels = store.empty();
        let added = add_fired(
            &own.action.effect,
            &frame,
            &mut atom,
            store,
            state,
            &mut adds,
            &mut dels,
        );
        added.and(Ok((adds, dels)))
    }

    fn cost(&self, step: u32, store: &S, state: &S::Set) -> Result<u128, AllocError> {
        let own = self.applied(step);
        let effect = &own.action.effect;
        let frame = Frame::Step(own.objects);
        let mut atom = blank(self.alloc);
        spent(effect, &frame, &mut atom, &self.prices, store, state)
    }
}
