//! The verdict.

ghost use Rattle.std.specs.Prelude.{◌≡◌, ℕ, false, IfOk};
ghost use Rattle.pddl_happenings.specs.Accepted.{AllFine, after_all};
ghost use Rattle.pddl_happenings.specs.Failures.{IsFirstUnready, IsFirstClash, AtHappening};
ghost use Rattle.pddl_happenings.specs.NamedSteps.{by_name};
ghost use Rattle.pddl_happenings.specs.Serialisations.{Converges};
ghost use Rattle.pddl_judge.specs.HappeningValues.{groups_of, moments_of};
ghost use Rattle.pddl_judge.specs.Verdicts.{IfPrecondition, IfInterference, IfGoal, OnAccepted, OnRefused};
ghost use Rattle.pddl_linked_task.specs.LinkedTasks.{task_of_files};
ghost use Rattle.pddl_meaning.specs.Worlds.{Atoms};
ghost use Rattle.pddl_linked_plan.specs.LinkedSteps.{AreLinkedSteps};
ghost use Rattle.pddl_plan_steps.specs.NumberedSteps.{number_of};
ghost use Rattle.pddl_plan_steps.specs.PlanSteps.{named_steps, initial_state, goal_of};
ghost use Rattle.pddl_plan_steps.specs.AcceptedPlans.{AreHappeningsOf, OfHappenings, IsAcceptedPlan};
ghost use Rattle.pddl_valid.specs.NamedClashes.{NamesLeast};

use crate::moments::happenings;
use pddl_judge::{Verdict, judge};
use pddl_linked_plan::Steps;
use pddl_linked_task::Task;
use pddl_state::AtomStore;
use pddl_step::{compile_plan, initial_state, let_go_compiled_plan};
use std::alloc::{AllocError, Allocator};

/// The verdict on linked steps, over a store.
///
/// `happenings`, `accepted`: an accepted plan's happenings are those of the steps, and it is accepted by them with the end, by the names of its
/// atoms, and the cost. `end_own`: the end is a set of the store. `converges`: every serialisation of these happenings runs, to that end and at that cost.
/// `precondition`, `interference`: the happenings before the named one pass, and it fails by the first step in file order whose precondition is
/// false, or, where all are true, by the first pair that interferes; the atom is the least of the clash. `passes`, `goal`: all happenings pass and the goal is
/// false. `refused`: a plan is refused only where it is not accepted, with whatever end and cost.
///
/// Fails only where memory is refused; a store is given up with a refusal. Fox and Long, PDDL2.1, JAIR 20, 2003; costs and the order of refusals are own.
pub fn validate<'m, 'a, 'b, 'c, A, B, C, D, S>(
    alloc: &'c D,
    task: &Task<'m, 'a, A, B>,
    steps: &Steps<'b, C>,
    mut store: S,
) -> Result<Verdict<&'c D, &'c D, S>, AllocError>
where
    A: Allocator,
    B: Allocator,
    C: Allocator,
    D: Allocator,
    S: AtomStore<&'c D>,
    requires { AreLinkedSteps (task_of_files task.now) steps.now }
    ensures end_own { IfOk result (λ v. OnAccepted v (λ a. S.owns a.store a.end)) }
    ensures happenings { IfOk result (λ v. OnAccepted v (λ a. AreHappeningsOf steps.now (moments_of a.happenings.items) (groups_of a.happenings.items))) }
    ensures accepted { IfOk result (λ v. OnAccepted v (λ a. IsAcceptedPlan (task_of_files task.now) steps.now (by_name (number_of (task_of_files task.now)) (S.content a.store a.end)) a.cost)) }
    ensures converges { IfOk result (λ v. OnAccepted v (λ a. Converges (named_steps (task_of_files task.now) steps.now) (initial_state (task_of_files task.now)) (groups_of a.happenings.items))) }
    ensures precondition { IfOk result (λ v. OnRefused v (λ r. IfPrecondition r (λ h step. OfHappenings steps.now (λ gs. AtHappening (named_steps (task_of_files task.now) steps.now) (λ s g. IsFirstUnready (named_steps (task_of_files task.now) steps.now) s g step) (initial_state (task_of_files task.now)) gs h)))) }
    ensures interference { IfOk result (λ v. OnRefused v (λ r. IfInterference r (λ h first second x. OfHappenings steps.now (λ gs. AtHappening (named_steps (task_of_files task.now) steps.now) (λ s g. IsFirstClash (named_steps (task_of_files task.now) steps.now) (NamesLeast (task_of_files task.now) x) s g first second) (initial_state (task_of_files task.now)) gs h)))) }
    ensures passes { IfOk result (λ v. OnRefused v (λ r. IfGoal r (OfHappenings steps.now (λ gs. AllFine (named_steps (task_of_files task.now) steps.now) (initial_state (task_of_files task.now)) gs)))) }
    ensures goal { IfOk result (λ v. OnRefused v (λ r. IfGoal r (OfHappenings steps.now (λ gs. goal_of (task_of_files task.now) (after_all (named_steps (task_of_files task.now) steps.now) (initial_state (task_of_files task.now)) gs) ≡ false)))) }
    ensures refused { IfOk result (λ v. OnRefused v (λ r. (end : Atoms) (cost : ℕ) → IsAcceptedPlan (task_of_files task.now) steps.now end cost → ⊥)) }
{
    task.files_are_linked();
    let start = initial_state(alloc, task, &mut store)?;
    let groups = happenings(alloc, steps)?;
    let plan = compile_plan(alloc, task, steps)?;
    let verdict = judge(&plan, groups, store, start);
    let_go_compiled_plan(plan);
    verdict
}
