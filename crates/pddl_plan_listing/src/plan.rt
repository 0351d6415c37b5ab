//! Linked plans.

ghost use Rattle.pddl_linked_task.specs.LinkedTasks.{task_of_files};
ghost use Rattle.pddl_linked_plan.specs.LinkedSteps.{AreLinkedSteps};

use crate::listed::OfPlan;
use crate::moments::add_happenings;
use crate::steps::{add_step_fault, add_steps};
use crate::stores::{Over, add_over_both, add_replays};
use pddl_file_lines::{Outcome, let_go_plan};
use pddl_linked_plan::Steps;
use pddl_linked_task::Task;
use pddl_plan::Plan;
use pddl_plan_link::link_plan;
use pddl_plan_reader::read_plan;
use pddl_row_driver::{Files, Lines, add_read_fault};
use std::alloc::Allocator;

/// Adds what is listed of linked steps.
fn add_listed<'m, 'a, 'b, A: Allocator, B: Allocator, C: Allocator, D: Allocator>(
    alloc: &D,
    listed: OfPlan,
    task: &Task<'m, 'a, A, B>,
    steps: &Steps<'b, C>,
    fourth: &[u8],
    lines: &mut Lines,
) -> Outcome
    requires { AreLinkedSteps (task_of_files task.now) steps.now }
{
    match listed {
        OfPlan::Steps => add_steps(steps, lines),
        OfPlan::Happenings => add_happenings(alloc, steps, lines),
        OfPlan::Replays => add_replays(alloc, task, steps, fourth, lines),
        OfPlan::Stored(stored) => {
            add_over_both(alloc, Over::Stored(stored), task, steps, fourth, lines)
        }
    }
}

/// Links a plan, and adds what is listed of its steps, and once more of the same steps, where memory was refused.
fn add_linked<'m, 'a, A: Allocator, B: Allocator, C: Allocator, D: Allocator>(
    alloc: &D,
    listed: OfPlan,
    task: &Task<'m, 'a, A, B>,
    plan: &Plan<C>,
    fourth: &[u8],
    lines: &mut Lines,
) -> Outcome {
    match link_plan(alloc, task, plan) {
        Ok(steps) => {
            let start = lines.size();
            let mut outcome = add_listed(alloc, listed, task, &steps, fourth, lines);
            if lines.begin_again(start) {
                outcome = add_listed(alloc, listed, task, &steps, fourth, lines);
            }
            outcome
        }
        Err(fault) => add_step_fault(fault, lines),
    }
}

/// Adds what is listed of the plan in the third file with a task, and once more of the same task and plan, where memory was refused.
pub fn add_plan<A: Allocator, B: Allocator, D: Allocator>(
    alloc: &D,
    listed: OfPlan,
    task: &Task<'_, '_, A, B>,
    files: Files<'_>,
    lines: &mut Lines,
) -> Outcome {
    match read_plan(alloc, files.third) {
        Ok(plan) => {
            let start = lines.size();
            let mut outcome = add_linked(alloc, listed, task, &plan, files.fourth, lines);
            if lines.begin_again(start) {
                outcome = add_linked(alloc, listed, task, &plan, files.fourth, lines);
            }
            let_go_plan(plan);
            outcome
        }
        Err(fault) => add_read_fault(alloc, &fault, lines),
    }
}
