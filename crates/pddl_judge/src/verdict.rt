ghost use Rattle.std.specs.Prelude.{◌≡◌, ◌≤◌, IfOk, IfErr, false};
ghost use Rattle.pddl_happenings.specs.Accepted.{AllFine, after_all, IsAcceptedRun, NotAccepted};
ghost use Rattle.pddl_happenings.specs.Failures.{IsFirstUnready, IsFirstClash, AtHappening};
ghost use Rattle.pddl_happenings.specs.Happenings.{HaveEachOnce};
ghost use Rattle.pddl_happenings.specs.Serialisations.{Converges};
ghost use Rattle.pddl_judge.specs.HappeningValues.{groups_of};
ghost use Rattle.pddl_judge.specs.Stages.{IsRefusedBy};
ghost use Rattle.pddl_judge.specs.Verdicts.{IsLeast, IfPrecondition, IfInterference, IfGoal, OnAccepted, OnRefused};

use crate::course::Course;
use crate::happening::Happening;
use crate::refusal::Refusal;
use crate::stage::pass;
use pddl_state::AtomStore;
use std::alloc::{AllocError, Allocator};

/// An accepted plan.
#[derive(Drop)]
pub struct Accepted<A: Allocator, B: Allocator, S: AtomStore<A>> {
    /// What its steps cost together.
    pub cost: u128,
    /// Its happenings.
    pub happenings: Vec<Happening<B>, B>,
    /// The store of its end.
    pub store: S,
    /// The state at the end.
    pub end: S::Set,
}

/// What is said of a plan.
#[derive(Drop)]
pub enum Verdict<A: Allocator, B: Allocator, S: AtomStore<A>> {
    /// It is accepted.
    Accepted(Accepted<A, B, S>),
    /// It is refused, and the store is given up.
    Refused(Refusal<A>),
}

/// Executes happenings one after another, up to the first that fails, and looks at the goal at their end; answers what they
/// cost, or why they are refused.
fn run<A: Allocator, B: Allocator, S: AtomStore<A>, P: Course<A, S>>(
    course: &P,
    happenings: &[Happening<B>],
    store: &mut S,
    state: &mut S::Set,
) -> Result<Result<u128, Refusal<A>>, AllocError>
    requires count { P.count_of course.now ≤ 1000000 }
    requires each { HaveEachOnce (P.count_of course.now) (groups_of happenings.now) }
    requires own { S.owns store.old state.old }
    ensures own { IfOk result (λ r. IfOk r (λ cost. S.owns store.new state.new)) }
    ensures accepted { IfOk result (λ r. IfOk r (λ cost. IsAcceptedRun (P.steps_of course.now) (P.goal_of course.now) (S.content store.old state.old) (groups_of happenings.now) (S.content store.new state.new) cost)) }
    ensures refused { IfOk result (λ r. IfErr r (IsRefusedBy (P.steps_of course.now) (P.goal_of course.now) (S.content store.old state.old) (groups_of happenings.now))) }
{
    let mut cost = 0;
    for (h, happening) in happenings.iter().enumerate() {
        match pass(course, h, &happening.steps, store, state)? {
            Ok(spent) => cost += spent,
            Err(refusal) => return Ok(Err(refusal)),
        }
    }
    let good = course.goal_holds(store, state)?;
    if good {
        Ok(Ok(cost))
    } else {
        Ok(Err(Refusal::Goal))
    }
}

/// The verdict on a plan's happenings, which have each of its steps once, from a state of a store.
///
/// `accepted`: an accepted plan's end is the state after its happenings, in which the goal is true, and its cost the sum of
/// what they cost. `converges`: every serialisation of them runs, to that end and at that cost. `precondition`,
/// `interference`: the happenings before the named one pass, and it fails as is said: by the first step whose precondition
/// is false, and only where there is none by the first pair that interferes, with the least atom of its clash.
/// `fine_but_goal`, `goal`: all happenings pass and the goal is false. `refused`: a plan is refused only where it is not
/// accepted, with whatever end and cost. Fails only for want of memory. Fox and Long, PDDL2.1, JAIR 20, 2003; the order of
/// refusals is own.
pub fn judge<A: Allocator, B: Allocator, S: AtomStore<A>, P: Course<A, S>>(
    course: &P,
    happenings: Vec<Happening<B>, B>,
    mut store: S,
    mut state: S::Set,
) -> Result<Verdict<A, B, S>, AllocError>
    requires count { P.count_of course.now ≤ 1000000 }
    requires each { HaveEachOnce (P.count_of course.now) (groups_of happenings.items) }
    requires own { S.owns store state }
    ensures end_own { IfOk result (λ v. OnAccepted v (λ a. S.owns a.store a.end)) }
    ensures happenings { IfOk result (λ v. OnAccepted v (λ a. a.happenings ≡ happenings)) }
    ensures accepted { IfOk result (λ v. OnAccepted v (λ a. IsAcceptedRun (P.steps_of course.now) (P.goal_of course.now) (S.content store state) (groups_of happenings.items) (S.content a.store a.end) a.cost)) }
    ensures converges { IfOk result (λ v. OnAccepted v (λ a. Converges (P.steps_of course.now) (S.content store state) (groups_of happenings.items))) }
    ensures precondition { IfOk result (λ v. OnRefused v (λ r. IfPrecondition r (λ h step. AtHappening (P.steps_of course.now) (λ s g. IsFirstUnready (P.steps_of course.now) s g step) (S.content store state) (groups_of happenings.items) h))) }
    ensures interference { IfOk result (λ v. OnRefused v (λ r. IfInterference r (λ h first second a. AtHappening (P.steps_of course.now) (λ s g. IsFirstClash (P.steps_of course.now) (IsLeast a) s g first second) (S.content store state) (groups_of happenings.items) h))) }
    ensures fine_but_goal { IfOk result (λ v. OnRefused v (λ r. IfGoal r (AllFine (P.steps_of course.now) (S.content store state) (groups_of happenings.items)))) }
    ensures goal { IfOk result (λ v. OnRefused v (λ r. IfGoal r (P.goal_of course.now (after_all (P.steps_of course.now) (S.content store state) (groups_of happenings.items)) ≡ false))) }
    ensures refused { IfOk result (λ v. OnRefused v (λ r. NotAccepted (P.steps_of course.now) (P.goal_of course.now) (S.content store state) (groups_of happenings.items))) }
{
    match run(course, &happenings, &mut store, &mut state)? {
        Ok(cost) => Ok(Verdict::Accepted(Accepted {
            cost,
            happenings,
            store,
            end: state,
        })),
        Err(refusal) => Ok(Verdict::Refused(refusal)),
    }
}
