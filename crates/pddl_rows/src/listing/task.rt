//! Tasks.

use super::answers::add_answers;
use super::numbers::add_numbers;
use crate::command::Listed;
use pddl_file_lines::Outcome;
use pddl_linked_task::Task;
use pddl_row_driver::{Files, Lines, OfTask};
use std::alloc::Allocator;

/// Adds the ground size of the goal.
fn add_size<A: Allocator, C: Allocator>(task: &Task<'_, '_, A, C>, lines: &mut Lines) -> Outcome {
    lines.shown(&task.ground_size(&task.problem().goal));
    lines.end();
    Outcome::Good
}

impl OfTask for Listed {
    fn add<A: Allocator, C: Allocator, B: Allocator>(
        self,
        alloc: &B,
        task: &Task<'_, '_, A, C>,
        files: Files<'_>,
        lines: &mut Lines,
    ) -> Outcome {
        match self {
            Listed::Numbers => add_numbers(task, lines),
            Listed::Size => add_size(task, lines),
            Listed::Answers(asked) => add_answers(alloc, asked, task, files.third, lines),
        }
    }
}
