//! What is printed for a plan.

ghost use Rattle.std.specs.Prelude.{◌≡◌, IfOk};
ghost use Rattle.pddl_domain.specs.Domains.{domain_view};
ghost use Rattle.pddl_happenings.specs.NamedSteps.{by_name};
ghost use Rattle.pddl_judge.specs.Verdicts.{IfInterference, OnRefused};
ghost use Rattle.pddl_linked_task.specs.LinkedTasks.{task_of_files};
ghost use Rattle.pddl_linked_plan.specs.LinkedSteps.{AreLinkedSteps};
ghost use Rattle.pddl_linked_plan.specs.NumberedAtoms.{IsInRange};
ghost use Rattle.pddl_plan_steps.specs.NumberedSteps.{number_of};
ghost use Rattle.pddl_problem.specs.Problems.{problem_view};
ghost use Rattle.pddl_plan.specs.Plans.{plan_view};
ghost use Rattle.pddl_plan_commands.specs.PlanChecks.{failure_line, AreStepsJudged, IsJudgedIn, IsPlanJudged};
ghost use Rattle.pddl_plan_commands.specs.Inner.ShownVerdicts.{failure_of, IsShown, IsVerdictOf};
ghost use Rattle.pddl_plan_commands.specs.Inner.WantedPrintings.{printing_of};

use crate::accepted::accepted_text;
use crate::wanted::Wanted;
use pddl_bit_store::BitStore;
use pddl_domain::Domain;
use pddl_file_lines::{Formatted, Outcome, refused_link};
use pddl_judge::Refusal;
use pddl_link::link;
use pddl_linked_plan::Steps;
use pddl_linked_task::{Task, let_go_task};
use pddl_plan::Plan;
use pddl_plan_lines::{clash_line, goal_line, refused_steps, unready_line};
use pddl_plan_link::link_plan;
use pddl_problem::Problem;
use pddl_state::AtomStore;
use pddl_valid::{Verdict, validate};
use std::alloc::{AllocError, Allocator};

/// The line of a plan that is refused.
fn failure_line<'m, 'a, A: Allocator, B: Allocator, C: Allocator, D: Allocator>(
    alloc: C,
    task: &Task<'m, 'a, A, B>,
    refusal: &Refusal<D>,
) -> Result<Vec<u8, C>, AllocError>
    requires { IfInterference refusal.now (λ _ _ _ atom. IsInRange (task_of_files task.now) atom) }
    ensures { IfOk result (λ line. line.items ≡ failure_line (failure_of (task_of_files task.now) refusal.now)) }
{
    match refusal {
        Refusal::Precondition { happening, step } => {
            unready_line(alloc, *happening, *step as usize)
        }
        Refusal::Interference {
            happening,
            first,
            second,
            atom,
        } => {
            let steps = (*first as usize, *second as usize);
            clash_line(alloc, task, *happening, steps, atom)
        }
        Refusal::Goal => goal_line(alloc),
    }
}

/// What is printed for the verdict on linked steps, and the outcome.
fn shown<'r, 'm, 'a, 'b, A, B, C, D, E, F, S>(
    alloc: &'r D,
    task: &Task<'m, 'a, A, B>,
    steps: &Steps<'b, C>,
    verdict: &Verdict<E, F, S>,
    wanted: Wanted,
) -> Result<Formatted<'r, D>, AllocError>
where
    A: Allocator,
    B: Allocator,
    C: Allocator,
    D: Allocator,
    E: Allocator,
    F: Allocator,
    S: AtomStore<E>,
    requires accepted { IsVerdictOf (task_of_files task.now) steps.now (λ a. by_name (number_of (task_of_files task.now)) (S.content a.store a.end)) verdict.now }
    requires in_range { OnRefused verdict.now (λ r. IfInterference r (λ _ _ _ atom. IsInRange (task_of_files task.now) atom)) }
    ensures { IfOk result (λ answer. IsShown (printing_of wanted) (task_of_files task.now) steps.now
        (λ a. by_name (number_of (task_of_files task.now)) (S.content a.store a.end)) verdict.now answer.0.items answer.1) }
{
    match verdict {
        Verdict::Accepted(accepted) => {
            let text = accepted_text(alloc, task, steps, accepted, wanted)?;
            Ok((text, Outcome::Good))
        }
        Verdict::Refused(refusal) => {
            let line = failure_line(alloc, task, refusal)?;
            Ok((line, Outcome::Invalid))
        }
    }
}

/// What is printed for linked steps, judged over a store, and the outcome.
fn judged_steps<'r, 'm, 'a, 'b, A, B, C, D, S>(
    alloc: &'r D,
    task: &Task<'m, 'a, A, B>,
    steps: &Steps<'b, C>,
    store: S,
    wanted: Wanted,
) -> Result<Formatted<'r, D>, AllocError>
where
    A: Allocator,
    B: Allocator,
    C: Allocator,
    D: Allocator,
    S: AtomStore<&'r D>,
    requires { AreLinkedSteps (task_of_files task.now) steps.now }
    ensures { IfOk result (λ answer. AreStepsJudged (printing_of wanted) (task_of_files task.now) steps.now answer.0.items answer.1) }
{
    task.files_are_linked();
    let verdict = validate(alloc, task, steps, store)?;
    let answer = shown(alloc, task, steps, &verdict, wanted);
    drop(verdict);
    answer
}

/// What is printed for a plan with a task, and the outcome.
fn judged_in<'r, 'm, 'a, A: Allocator, B: Allocator, C: Allocator, D: Allocator>(
    alloc: &'r D,
    task: &Task<'m, 'a, A, B>,
    plan: &Plan<C>,
    wanted: Wanted,
) -> Result<Formatted<'r, D>, AllocError>
    ensures { IfOk result (λ answer. IsJudgedIn (printing_of wanted) (task_of_files task.now) (plan_view plan.now) answer.0.items answer.1) }
{
    match link_plan(alloc, task, plan) {
        Ok(steps) => {
            let store = BitStore::hashing(alloc, task.hashed().with(plan.hashed()));
            let answer = judged_steps(alloc, task, &steps, store, wanted);
            drop(steps);
            answer
        }
        Err(fault) => refused_steps(alloc, fault),
    }
}

/// What is printed for a plan with a domain and a problem, and the outcome.
///
/// Fails where memory is refused.
pub(crate) fn judged_plan<'r, A: Allocator, B: Allocator, C: Allocator>(
    alloc: &'r C,
    domain: &Domain<A>,
    problem: &Problem<A>,
    plan: &Plan<B>,
    wanted: Wanted,
) -> Result<Formatted<'r, C>, AllocError>
    ensures { IfOk result (λ answer. IsPlanJudged (printing_of wanted) (domain_view domain.now) (problem_view problem.now) (plan_view plan.now) answer.0.items answer.1) }
{
    match link(alloc, domain, problem) {
        Ok(task) => {
            let answer = judged_in(alloc, &task, plan, wanted);
            let_go_task(task);
            answer
        }
        Err(fault) => refused_link(alloc, &fault),
    }
}
