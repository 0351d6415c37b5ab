//! Steps of linked plans, and why a plan is not linked.

use pddl_file_lines::Outcome;
use pddl_linked_plan::{LinkedStep, Steps};
use pddl_plan_link::StepFault;
use pddl_row_driver::Lines;
use std::alloc::Allocator;

/// Adds the numbers of a step's action and of its objects, and its moment.
fn add_step(step: &LinkedStep<'_>, lines: &mut Lines) {
    lines.shown(&step.action);
    lines.numbers(step.objects);
    if let Some(moment) = step.moment {
        lines.word(b"at");
        lines.shown(&moment.billionths());
    }
    lines.end();
}

/// Adds a line for each step, and looks for one past the last.
pub fn add_steps<C: Allocator>(steps: &Steps<'_, C>, lines: &mut Lines) -> Outcome {
    for number in 0..steps.len().saturating_add(1) {
        if let Some(step) = steps.get(number) {
            add_step(&step, lines);
        }
    }
    Outcome::Good
}

/// The number of a fault, and the step that it names. Want of memory has neither.
fn told(fault: StepFault) -> (u64, Option<usize>) {
    match fault {
        StepFault::Memory => (0, None),
        StepFault::UnknownAction { step } => (40, Some(step)),
        StepFault::StepArity { step } => (41, Some(step)),
        StepFault::UnknownObject { step } => (42, Some(step)),
        StepFault::StepType { step } => (43, Some(step)),
        StepFault::CostUndefined { step } => (44, Some(step)),
        StepFault::PlanTooLong => (45, None),
        StepFault::StepTooLarge { step } => (46, Some(step)),
    }
}

/// Adds the line of a fault.
pub fn add_step_fault(fault: StepFault, lines: &mut Lines) -> Outcome {
    let (number, step) = told(fault);
    if number == 0 {
        lines.refuse();
    }
    lines.word(b"fault");
    lines.shown(&number);
    if let Some(step) = step {
        lines.word(b"step");
        lines.shown(&step);
    }
    lines.end();
    Outcome::Refused
}
