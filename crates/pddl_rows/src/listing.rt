//! What calls below the commands answer, in lines.

mod answers;
mod domain;
mod numbers;
mod plan;
mod problem;
mod task;
mod types;
mod values;
mod words;

use crate::command::Listing;
use pddl_device::Sink;
use pddl_file_lines::{Outcome, RunFault};
use pddl_kind::Kind;
use pddl_row_driver::{Files, Lines, Memory, add_task, write_lines};
use std::alloc::{Allocator, Global};
pub use values::Value;

/// Adds the lines of a listing of texts.
fn add_listing<B: Allocator>(
    alloc: &B,
    listing: Listing,
    files: Files<'_>,
    lines: &mut Lines,
) -> Outcome {
    match listing {
        Listing::Words => words::add_words(alloc, false, files.first, lines),
        Listing::Items => words::add_items(alloc, files.first, lines),
        Listing::Lists => words::add_words(alloc, true, files.first, lines),
        Listing::Fault => words::add_fault(alloc, files.first, lines),
        Listing::Values(value) => values::add_values(alloc, value, files.first, lines),
        Listing::Places => values::add_places(files.first, files.second, lines),
        Listing::Parts(Kind::Domain) => domain::add_domain(alloc, files.first, lines),
        Listing::Parts(Kind::Problem) => problem::add_problem(alloc, files.first, lines),
        Listing::Parts(Kind::Plan) => plan::add_plan(alloc, files.first, lines),
        Listing::Task(listed) => add_task(alloc, listed, files, lines),
    }
}

/// Writes a listing of texts.
pub fn list<W: Sink>(
    alloc: Global,
    memory: &Memory,
    listing: Listing,
    files: Files<'_>,
    out: &mut W,
) -> Result<Outcome, RunFault> {
    let mut lines = Lines::new(alloc);
    let outcome = add_listing(memory, listing, files, &mut lines);
    write_lines(memory, outcome, &lines, out)
}
