//! Listings over both stores of atoms.

ghost use Rattle.pddl_linked_task.specs.LinkedTasks.{task_of_files};
ghost use Rattle.pddl_linked_plan.specs.LinkedSteps.{AreLinkedSteps};

use crate::courses::add_course;
use crate::ends::add_verdict;
use crate::listed::Stored;
use crate::made::add_made;
use crate::replays::add_replay;
use pddl_bit_store::BitStore;
use pddl_file_lines::Outcome;
use pddl_linked_plan::Steps;
use pddl_linked_task::Task;
use pddl_row_driver::{Lines, text_of};
use pddl_state::{AtomStore, SortedStore};
use std::alloc::Allocator;

/// What is listed over a store of atoms.
#[derive(Clone, Copy)]
pub enum Over<'l> {
    /// What a row asks for.
    Stored(Stored),
    /// The end of the serial run of the steps that a line lists.
    Replay(&'l str),
}

/// Adds what is listed of linked steps over a store.
fn add_over<'m, 'a, 'b, 'c, A, B, C, D, S>(
    alloc: &'c D,
    listed: Over<'_>,
    task: &Task<'m, 'a, A, B>,
    steps: &Steps<'b, C>,
    fourth: &[u8],
    store: S,
    lines: &mut Lines,
) -> Outcome
where
    A: Allocator,
    B: Allocator,
    C: Allocator,
    D: Allocator,
    S: AtomStore<&'c D>,
    requires { AreLinkedSteps (task_of_files task.now) steps.now }
{
    match listed {
        Over::Replay(line) => add_replay(alloc, task, steps, line, store, lines),
        Over::Stored(Stored::Verdict) => add_verdict(alloc, false, task, steps, store, lines),
        Over::Stored(Stored::End) => add_verdict(alloc, true, task, steps, store, lines),
        Over::Stored(Stored::Made(made)) => {
            add_made(alloc, made, task, steps, fourth, store, lines)
        }
        Over::Stored(Stored::Asked(asked)) => add_course(alloc, asked, task, steps, store, lines),
    }
}

/// Adds what is listed of linked steps over both stores, once where it is the same.
pub fn add_over_both<'m, 'a, 'b, A: Allocator, B: Allocator, C: Allocator, D: Allocator>(
    alloc: &D,
    listed: Over<'_>,
    task: &Task<'m, 'a, A, B>,
    steps: &Steps<'b, C>,
    fourth: &[u8],
    lines: &mut Lines,
) -> Outcome
    requires { AreLinkedSteps (task_of_files task.now) steps.now }
{
    let start = lines.size();
    let sorted = SortedStore::new(alloc);
    let _ = add_over(alloc, listed, task, steps, fourth, sorted, lines);
    let half = lines.size();
    let bits = BitStore::new(alloc);
    let outcome = add_over(alloc, listed, task, steps, fourth, bits, lines);
    lines.merge(start, half);
    outcome
}

/// Adds how the run of each list of steps ends, of which a text has one in each line.
pub fn add_replays<'m, 'a, 'b, A: Allocator, B: Allocator, C: Allocator, D: Allocator>(
    alloc: &D,
    task: &Task<'m, 'a, A, B>,
    steps: &Steps<'b, C>,
    orders: &[u8],
    lines: &mut Lines,
) -> Outcome
    requires { AreLinkedSteps (task_of_files task.now) steps.now }
{
    for line in text_of(orders).lines() {
        add_over_both(alloc, Over::Replay(line), task, steps, b"", lines);
    }
    Outcome::Good
}
