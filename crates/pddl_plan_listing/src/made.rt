//! Serial forms and splits of accepted plans.

ghost use Rattle.pddl_happenings.specs.NamedSteps.{by_name};
ghost use Rattle.pddl_judge.specs.HappeningValues.{groups_of, moments_of};
ghost use Rattle.pddl_linked_task.specs.LinkedTasks.{task_of_files};
ghost use Rattle.pddl_linked_plan.specs.LinkedSteps.{AreLinkedSteps};
ghost use Rattle.pddl_plan_steps.specs.NumberedSteps.{number_of};
ghost use Rattle.pddl_serial_plans.specs.NewPlans.{IsAcceptedOf};

use crate::ends::{add_refusal, add_verdict};
use crate::listed::Made;
use crate::replays::add_numbers;
use crate::steps::add_step_fault;
use pddl_bit_store::BitStore;
use pddl_file_lines::{Outcome, let_go_plan};
use pddl_layout::plan_text;
use pddl_linked_plan::Steps;
use pddl_linked_task::Task;
use pddl_plan::Plan;
use pddl_plan_link::link_plan;
use pddl_row_driver::{Lines, text_of};
use pddl_serial_plans::{SplitFault, serialise, split};
use pddl_state::AtomStore;
use pddl_valid::{Accepted, Verdict, validate};
use std::alloc::Allocator;

/// Adds the canonical text of a plan, and its verdict and end.
fn add_plan<A: Allocator, B: Allocator, C: Allocator, D: Allocator>(
    alloc: &D,
    task: &Task<'_, '_, A, B>,
    plan: &Plan<C>,
    lines: &mut Lines,
) -> Outcome {
    match plan_text(alloc, plan) {
        Ok(text) => lines.add(&text),
        Err(_) => lines.refuse(),
    }
    match link_plan(alloc, task, plan) {
        Ok(steps) => add_verdict(alloc, true, task, &steps, BitStore::new(alloc), lines),
        Err(fault) => add_step_fault(fault, lines),
    }
}

/// The same, and lets the plan go.
fn add_new<A: Allocator, B: Allocator, C: Allocator, D: Allocator>(
    alloc: &D,
    task: &Task<'_, '_, A, B>,
    plan: Plan<C>,
    lines: &mut Lines,
) -> Outcome {
    let outcome = add_plan(alloc, task, &plan, lines);
    let_go_plan(plan);
    outcome
}

/// Adds the groups of a line, between which strokes stand, to others. An empty line has no groups.
fn add_groups<'a, B: Allocator>(
    alloc: &'a B,
    line: &str,
    groups: &mut Vec<Vec<u32, &'a B>, &'a B>,
    lines: &mut Lines,
) {
    if line.is_empty() {
        return;
    }
    for part in line.split('/') {
        let mut group = Vec::new(alloc);
        add_numbers(part, &mut group, lines);
        lines.push(groups, Some(group));
    }
}

/// Adds the split of an accepted plan by the groups of a line.
fn add_split<'m, 'a, 'b, A, B, C, D, E, F, S>(
    alloc: &D,
    line: &str,
    task: &Task<'m, 'a, A, B>,
    steps: &Steps<'b, C>,
    accepted: &Accepted<E, F, S>,
    lines: &mut Lines,
)
where
    A: Allocator,
    B: Allocator,
    C: Allocator,
    D: Allocator,
    E: Allocator,
    F: Allocator,
    S: AtomStore<E>,
    requires { IsAcceptedOf (task_of_files task.now) steps.now (moments_of accepted.now.happenings.items) (groups_of accepted.now.happenings.items)
        (by_name (number_of (task_of_files task.now)) (S.content accepted.now.store accepted.now.end)) accepted.now.cost }
{
    let mut groups = Vec::new(alloc);
    add_groups(alloc, line, &mut groups, lines);
    match split(alloc, task, steps, accepted, &groups) {
        Ok(plan) => {
            let _ = add_new(alloc, task, plan, lines);
        }
        Err(SplitFault::NotASplit) => lines.add(b"61 NotASplit\n"),
        Err(SplitFault::Memory) => lines.refuse(),
    }
}

/// Adds the plans that are made of an accepted one: its serial form, or its split by the groups of each line of a text.
fn add_of_accepted<'m, 'a, 'b, A, B, C, D, E, F, S>(
    alloc: &D,
    made: Made,
    task: &Task<'m, 'a, A, B>,
    steps: &Steps<'b, C>,
    fourth: &[u8],
    accepted: &Accepted<E, F, S>,
    lines: &mut Lines,
) -> Outcome
where
    A: Allocator,
    B: Allocator,
    C: Allocator,
    D: Allocator,
    E: Allocator,
    F: Allocator,
    S: AtomStore<E>,
    requires { IsAcceptedOf (task_of_files task.now) steps.now (moments_of accepted.now.happenings.items) (groups_of accepted.now.happenings.items)
        (by_name (number_of (task_of_files task.now)) (S.content accepted.now.store accepted.now.end)) accepted.now.cost }
{
    match made {
        Made::Serial(order) => match serialise(alloc, task, steps, accepted, order) {
            Ok(plan) => return add_new(alloc, task, plan, lines),
            Err(_) => lines.refuse(),
        },
        Made::Splits => {
            for line in text_of(fourth).lines() {
                add_split(alloc, line, task, steps, accepted, lines);
            }
        }
    }
    Outcome::Good
}

/// Adds the plans that are made of linked steps, or why these are not accepted.
pub fn add_made<'m, 'a, 'b, 'c, A, B, C, D, S>(
    alloc: &'c D,
    made: Made,
    task: &Task<'m, 'a, A, B>,
    steps: &Steps<'b, C>,
    fourth: &[u8],
    store: S,
    lines: &mut Lines,
) -> Outcome
where
    A: Allocator,
    B: Allocator,
    C: Allocator,
    D: Allocator,
    S: AtomStore<&'c D>,
    requires { AreLinkedSteps (task_of_files task.now) steps.now }
{
    match validate(alloc, task, steps, store) {
        Ok(Verdict::Accepted(accepted)) => {
            add_of_accepted(alloc, made, task, steps, fourth, &accepted, lines)
        }
        Ok(Verdict::Refused(refusal)) => add_refusal(task, &refusal, lines),
        Err(_) => {
            lines.refuse();
            Outcome::Refused
        }
    }
}
