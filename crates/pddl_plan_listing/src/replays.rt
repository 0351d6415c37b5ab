//! Runs of steps one after another.

ghost use Rattle.pddl_linked_task.specs.LinkedTasks.{task_of_files};
ghost use Rattle.pddl_linked_plan.specs.LinkedSteps.{AreLinkedSteps};

use crate::ends::add_end;
use pddl_file_lines::Outcome;
use pddl_linked_plan::Steps;
use pddl_linked_task::Task;
use pddl_row_driver::Lines;
use pddl_state::AtomStore;
use pddl_valid::{ReplayFault, replay};
use std::alloc::Allocator;

/// Adds the numbers that a part of a line has to others.
pub fn add_numbers<A: Allocator>(part: &str, numbers: &mut Vec<u32, A>, lines: &mut Lines) {
    for word in part.split(' ') {
        lines.push(numbers, word.parse::<u32>().ok());
    }
}

/// Adds why a list of steps does not run to its end.
fn add_replay_fault(fault: ReplayFault, lines: &mut Lines) {
    match fault {
        ReplayFault::Memory => lines.refuse(),
        ReplayFault::NotASerialisation => lines.word(b"60 NotASerialisation"),
        ReplayFault::StepFails { place } => {
            lines.word(b"62 StepFails at place");
            lines.shown(&place);
        }
    }
    lines.end();
}

/// Adds how the run of the steps that a line lists ends over a store.
pub fn add_replay<'m, 'a, 'b, 'c, A, B, C, D, S>(
    alloc: &'c D,
    task: &Task<'m, 'a, A, B>,
    steps: &Steps<'b, C>,
    line: &str,
    store: S,
    lines: &mut Lines,
) -> Outcome
where
    A: Allocator,
    B: Allocator,
    C: Allocator,
    D: Allocator,
    S: AtomStore<&'c D>,
    requires { AreLinkedSteps (task_of_files task.now) steps.now }
{
    let mut order = Vec::new(alloc);
    add_numbers(line, &mut order, lines);
    match replay(alloc, task, steps, &order, store) {
        Ok(end) => add_end(task, &end.atoms, end.cost, lines),
        Err(fault) => add_replay_fault(fault, lines),
    }
    Outcome::Good
}
