//! Runs of lists of step numbers, of accepted plans and refused ones.

ghost use Rattle.std.specs.Prelude.{◌≡◌, ◌≤◌, ◌<◌, ℕ, Bool, List, All, IfOk, length};
ghost use Rattle.std.specs.List.{concat};
ghost use Rattle.pddl_state.specs.AtomSets.{IsRising, is_listed};
ghost use Rattle.pddl_happenings.specs.Steps.{Step};
ghost use Rattle.pddl_happenings.specs.Accepted.{after_all, cost_of_all};
ghost use Rattle.pddl_happenings.specs.Happenings.{HaveEachOnce, singles};
ghost use Rattle.pddl_happenings.specs.Serialisations.{IsSerialOrder, RunsSerially, FailsAt};
ghost use Rattle.pddl_judge.specs.HappeningValues.{groups_of};
ghost use Rattle.pddl_serial.specs.Replays.{OnNotASerialisation, OnSerialisation, OnStepFails, OnEnded};

use crate::listing::is_serialisation;
use crate::serial_run::run_serially;
use pddl_judge::{Course, Happening};
use pddl_state::{Atom, AtomStore};
use std::alloc::{AllocError, Allocator};

/// How a run of steps ends.
#[derive(Drop)]
pub struct End<A: Allocator> {
    /// The atoms that hold then, each once, by predicate and then by arguments.
    pub atoms: Vec<Atom<A>, A>,
    /// What the steps cost together.
    pub cost: u128,
}

/// What is said of a list of step numbers.
#[derive(Drop)]
pub enum Replayed<A: Allocator> {
    /// It is no serialisation.
    NotASerialisation,
    /// It is one, and the step at this place of the list, from 0, is the first whose precondition is false.
    StepFails(usize),
    /// It is one, and each step's precondition is true in its turn.
    Ended(End<A>),
}

/// How many steps happenings have.
fn step_count<H: Allocator>(happenings: &[Happening<H>]) -> usize
    requires { length (concat (groups_of happenings.now)) ≤ 1000000 }
    ensures { result ≡ length (concat (groups_of happenings.now)) }
{
    let mut steps = 0;
    for happening in happenings {
        steps += happening.steps.len();
    }
    steps
}

/// Executes steps one after another from a state of a store.
fn run_from<A: Allocator, S: AtomStore<A>, P: Course<A, S>>(
    course: &P,
    order: &[u32],
    store: &mut S,
    state: &mut S::Set,
) -> Result<Replayed<A>, AllocError>
    requires own { S.owns store.old state.old }
    requires steps { All (λ k. k < P.count_of course.now) order.now }
    requires few { length order.now ≤ 1000000 }
    ensures serial { IfOk result (λ r. OnNotASerialisation r ⊥) }
    ensures fails { IfOk result (λ r. OnStepFails r (FailsAt (P.steps_of course.now) (S.content store.old state.old) order.now)) }
    ensures runs { IfOk result (λ r. OnEnded r (λ e. RunsSerially (P.steps_of course.now) (S.content store.old state.old) order.now)) }
    ensures rising { IfOk result (λ r. OnEnded r (λ e. IsRising e.atoms.items)) }
    ensures atoms { IfOk result (λ r. OnEnded r (λ e. is_listed e.atoms.items ≡ after_all (P.steps_of course.now) (S.content store.old state.old) (singles order.now))) }
    ensures cost { IfOk result (λ r. OnEnded r (λ e. e.cost ≡ cost_of_all (P.steps_of course.now) (S.content store.old state.old) (singles order.now))) }
{
    match run_serially(course, order, store, state)? {
        Err(place) => Ok(Replayed::StepFails(place)),
        Ok(cost) => {
            let atoms = store.list(state)?;
            Ok(Replayed::Ended(End { atoms, cost }))
        }
    }
}

/// Executes the steps of a plan one after another, each alone, in the order of a list, from a state of a store.
/// The plan, whose happenings have each of its steps once, need not be accepted. The store is given up.
///
/// `not_serial`, `serial`: NotASerialisation is answered exactly where the list is none. `fails`: StepFails names the first
/// place whose step's precondition is false in the state that the steps before it give. `runs`, `rising`, `atoms`, `cost`: else
/// the list's own run is told, by the atoms of its last state and the sum of its costs. That one of the two comes, and which,
/// is the law [`a_list_ends_once`]. Fails only for want of memory. Own.
pub fn replay<A: Allocator, B: Allocator, H: Allocator, S: AtomStore<A>, P: Course<A, S>>(
    alloc: &B,
    course: &P,
    happenings: &[Happening<H>],
    order: &[u32],
    mut store: S,
    mut state: S::Set,
) -> Result<Replayed<A>, AllocError>
    requires count { P.count_of course.now ≤ 1000000 }
    requires own { S.owns store state }
    requires each { HaveEachOnce (P.count_of course.now) (groups_of happenings.now) }
    ensures not_serial { IfOk result (λ r. OnNotASerialisation r (IsSerialOrder (groups_of happenings.now) order.now → ⊥)) }
    ensures serial { IfOk result (λ r. OnSerialisation r (IsSerialOrder (groups_of happenings.now) order.now)) }
    ensures fails { IfOk result (λ r. OnStepFails r (FailsAt (P.steps_of course.now) (S.content store state) order.now)) }
    ensures runs { IfOk result (λ r. OnEnded r (λ e. RunsSerially (P.steps_of course.now) (S.content store state) order.now)) }
    ensures rising { IfOk result (λ r. OnEnded r (λ e. IsRising e.atoms.items)) }
    ensures atoms { IfOk result (λ r. OnEnded r (λ e. is_listed e.atoms.items ≡ after_all (P.steps_of course.now) (S.content store state) (singles order.now))) }
    ensures cost { IfOk result (λ r. OnEnded r (λ e. e.cost ≡ cost_of_all (P.steps_of course.now) (S.content store state) (singles order.now))) }
{
    let steps = step_count(happenings);
    let serial = is_serialisation(alloc, happenings, steps, order)?;
    if !serial {
        return Ok(Replayed::NotASerialisation);
    }
    run_from(course, order, &mut store, &mut state)
}

/// A list that runs to its end fails at no place, and one that fails does so at one place alone.
pub fn a_list_ends_once<A>()
    ensures runs { (p : ℕ → Step A) (s : A → Bool) (order : List ℕ) (place : ℕ) → RunsSerially p s order → FailsAt p s order place → ⊥ }
    ensures place { (p : ℕ → Step A) (s : A → Bool) (order : List ℕ) (one other : ℕ) → FailsAt p s order one → FailsAt p s order other → one ≡ other }
{}
