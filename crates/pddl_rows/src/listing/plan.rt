//! Plans.

use pddl_file_lines::{Outcome, let_go_plan};
use pddl_plan::{Plan, Step};
use pddl_plan_reader::{PlanReader, read_plan};
use pddl_row_driver::{Lines, add_read_fault, add_text_fault};
use pddl_scan::TextFault;
use pddl_step_reader::ReadFault;
use std::alloc::Allocator;

/// Adds the names of a step to the line.
fn add_step<A: Allocator>(step: &Step<'_, A>, lines: &mut Lines) {
    lines.word(step.action());
    for number in 0..step.arity() {
        lines.word(step.object(number));
    }
    lines.end();
}

/// Adds the steps of a plan, with their moments in billionths where they have some.
fn add_steps<A: Allocator>(plan: &Plan<A>, lines: &mut Lines) -> Outcome {
    for number in 0..plan.len() {
        match plan.moment(number) {
            Some(moment) => {
                lines.word(b"at");
                lines.shown(&moment.billionths());
            }
            None => lines.word(b"step"),
        }
        add_step(&plan.step(number), lines);
    }
    Outcome::Good
}

/// Adds the steps of a plan that was read, or why none was.
fn add_read<A: Allocator, B: Allocator>(
    alloc: &B,
    read: Result<Plan<A>, ReadFault>,
    lines: &mut Lines,
) -> Outcome {
    match read {
        Ok(plan) => {
            let outcome = add_steps(&plan, lines);
            let_go_plan(plan);
            outcome
        }
        Err(fault) => add_read_fault(alloc, &fault, lines),
    }
}

/// Gives a reader a first piece, and others of so many bytes behind it, and answers the first fault.
fn feed_pieces<B: Allocator>(
    reader: &mut PlanReader<&B>,
    first: &[u8],
    rest: &[u8],
    size: usize,
) -> Option<TextFault> {
    let mut fault = reader.feed(first).err();
    for piece in rest.chunks(size.max(1)) {
        fault = fault.or(reader.feed(piece).err());
    }
    fault
}

/// Adds the steps of a plan whose text came in pieces, or why none was read: the fault of a piece, if one has any.
fn add_fed<A: Allocator, B: Allocator>(
    alloc: &B,
    fault: Option<TextFault>,
    read: Result<Plan<A>, ReadFault>,
    lines: &mut Lines,
) {
    match fault {
        Some(fault) => {
            if let Ok(plan) = read {
                let_go_plan(plan);
            }
            add_text_fault(alloc, fault, lines);
        }
        None => {
            add_read(alloc, read, lines);
        }
    }
}

/// Adds what a text reads as that comes in pieces of so many bytes behind a first one.
fn add_pieces<B: Allocator>(alloc: &B, first: &[u8], rest: &[u8], size: usize, lines: &mut Lines) {
    let mut reader = PlanReader::new(alloc);
    let fault = feed_pieces(&mut reader, first, rest, size);
    add_fed(alloc, fault, reader.finish(), lines);
}

/// Adds what a plan reads as, cut in two at each place and byte by byte, where that is not what the text reads as that
/// was added from a place on.
fn add_cut<B: Allocator>(alloc: &B, text: &[u8], start: usize, lines: &mut Lines) {
    let end = lines.size();
    add_pieces(alloc, b"", text, 1, lines);
    lines.merge(start, end);
    for cut in 0..text.len() {
        if let Some((front, rest)) = text.split_at_checked(cut) {
            add_pieces(alloc, front, rest, usize::MAX, lines);
            lines.merge(start, end);
        }
    }
}

/// Adds the steps of the plan that a text spells, as one piece and in pieces.
pub fn add_plan<B: Allocator>(alloc: &B, text: &[u8], lines: &mut Lines) -> Outcome {
    let start = lines.size();
    let outcome = add_read(alloc, read_plan(alloc, text), lines);
    add_cut(alloc, text, start, lines);
    outcome
}
