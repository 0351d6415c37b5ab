//! Files that are read and written, and their canonical texts, by the calls below `format`.

use pddl_device::{Sink, Source, SourceFault, WriteFault, read_all, write_text};
use pddl_domain::let_go_domain;
use pddl_domain_reader::read_domain;
use pddl_file_layout::{domain_text, problem_text, write_domain, write_problem};
use pddl_file_lines::{Outcome, RunFault, let_go_plan};
use pddl_kind::Kind;
use pddl_layout::{plan_text, write_plan};
use pddl_plan_reader::read_plan;
use pddl_problem::let_go_problem;
use pddl_problem_reader::read_problem;
use pddl_row_driver::text_of;
use std::alloc::{AllocError, Allocator};

/// How a canonical text is written.
#[derive(Clone, Copy)]
pub enum Layout {
    /// Made in memory, and then written.
    Text,
    /// Piece by piece.
    Pieces,
}

/// What is answered for a text that was written.
fn written(wrote: Result<(), WriteFault>) -> Result<Outcome, RunFault> {
    match wrote {
        Ok(()) => Ok(Outcome::Good),
        Err(_) => Err(RunFault::WriteFailed),
    }
}

/// Writes a text that was made.
fn write_made<A: Allocator, W: Sink>(
    made: Result<Vec<u8, A>, AllocError>,
    out: &mut W,
) -> Result<Outcome, RunFault> {
    match made {
        Ok(text) => written(write_text(out, &text)),
        Err(_) => Err(RunFault::Memory),
    }
}

/// Writes the canonical text of the domain that a text spells.
fn write_domain_file<B: Allocator, W: Sink>(
    alloc: &B,
    layout: Layout,
    text: &[u8],
    out: &mut W,
) -> Result<Outcome, RunFault> {
    match read_domain(alloc, text) {
        Ok(domain) => {
            let ended = match layout {
                Layout::Text => write_made(domain_text(alloc, &domain), out),
                Layout::Pieces => written(write_domain(&domain, out)),
            };
            let_go_domain(domain);
            ended
        }
        Err(_) => Err(RunFault::Memory),
    }
}

/// Writes the canonical text of the problem that a text spells.
fn write_problem_file<B: Allocator, W: Sink>(
    alloc: &B,
    layout: Layout,
    text: &[u8],
    out: &mut W,
) -> Result<Outcome, RunFault> {
    match read_problem(alloc, text) {
        Ok(problem) => {
            let ended = match layout {
                Layout::Text => write_made(problem_text(alloc, &problem), out),
                Layout::Pieces => written(write_problem(&problem, out)),
            };
            let_go_problem(problem);
            ended
        }
        Err(_) => Err(RunFault::Memory),
    }
}

/// Writes the canonical text of the plan that a text spells.
fn write_plan_file<B: Allocator, W: Sink>(
    alloc: &B,
    layout: Layout,
    text: &[u8],
    out: &mut W,
) -> Result<Outcome, RunFault> {
    match read_plan(alloc, text) {
        Ok(plan) => {
            let ended = match layout {
                Layout::Text => write_made(plan_text(alloc, &plan), out),
                Layout::Pieces => written(write_plan(&plan, out)),
            };
            let_go_plan(plan);
            ended
        }
        Err(_) => Err(RunFault::Memory),
    }
}

/// Reads a file and writes its canonical text. A file that is not read counts as want of memory.
pub fn write_file<B: Allocator, W: Sink>(
    alloc: &B,
    layout: Layout,
    kind: Kind,
    text: &[u8],
    out: &mut W,
) -> Result<Outcome, RunFault> {
    match kind {
        Kind::Domain => write_domain_file(alloc, layout, text, out),
        Kind::Problem => write_problem_file(alloc, layout, text, out),
        Kind::Plan => write_plan_file(alloc, layout, text, out),
    }
}

/// Reads a text up to the limit that another says, and writes it.
pub fn write_read<B: Allocator, S: Source, W: Sink>(
    alloc: &B,
    source: &mut S,
    limit: &[u8],
    out: &mut W,
) -> Result<Outcome, RunFault> {
    let limit = text_of(limit).parse::<usize>().unwrap_or(0);
    match read_all(alloc, source, limit) {
        Ok(text) => written(write_text(out, &text)),
        Err(SourceFault::TooLong) => {
            written(write_text(out, b"too long\n")).and(Ok(Outcome::Refused))
        }
        Err(SourceFault::ReadFailed) => Err(RunFault::ReadFailed),
        Err(SourceFault::Memory) => Err(RunFault::Memory),
    }
}
