//! Happenings.

use pddl_file_lines::Outcome;
use pddl_linked_plan::Steps;
use pddl_row_driver::Lines;
use pddl_valid::{Happening, happenings};
use std::alloc::Allocator;

/// The most steps of a linked plan.
const MOST_STEPS: usize = 1_000_000;

/// Adds the moment of each happening, if it has one, and its steps.
fn add_each<A: Allocator>(found: &[Happening<A>], lines: &mut Lines) {
    for happening in found {
        lines.shown_or_none(happening.moment);
        lines.word(b":");
        lines.numbers(&happening.steps);
        lines.end();
    }
}

/// Adds the happenings of a linked plan.
pub fn add_happenings<C: Allocator, B: Allocator>(
    alloc: &B,
    steps: &Steps<'_, C>,
    lines: &mut Lines,
) -> Outcome {
    if steps.len() > MOST_STEPS {
        return Outcome::Refused;
    }
    match happenings(alloc, steps) {
        Ok(found) => add_each(&found, lines),
        Err(_) => lines.refuse(),
    }
    Outcome::Good
}
