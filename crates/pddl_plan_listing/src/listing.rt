//! What calls below the commands answer of plans, in lines.

use crate::listed::Listed;
use crate::{atoms, plan};
use pddl_device::Sink;
use pddl_file_lines::{Outcome, RunFault};
use pddl_linked_task::Task;
use pddl_row_driver::{Files, Lines, Memory, OfTask, add_task, write_lines};
use std::alloc::{Allocator, Global};

impl OfTask for Listed {
    fn add<A: Allocator, C: Allocator, B: Allocator>(
        self,
        alloc: &B,
        task: &Task<'_, '_, A, C>,
        files: Files<'_>,
        lines: &mut Lines,
    ) -> Outcome {
        match self {
            Listed::Atoms => atoms::add_first(alloc, task, lines),
            Listed::Plan(listed) => plan::add_plan(alloc, listed, task, files, lines),
        }
    }
}

/// Writes a listing of texts.
pub fn list<W: Sink>(
    alloc: Global,
    memory: &Memory,
    listed: Listed,
    files: Files<'_>,
    out: &mut W,
) -> Result<Outcome, RunFault> {
    let mut lines = Lines::new(alloc);
    let outcome = add_task(memory, listed, files, &mut lines);
    write_lines(memory, outcome, &lines, out)
}
