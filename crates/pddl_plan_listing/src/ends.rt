//! Verdicts, and the ends of accepted plans.

ghost use Rattle.pddl_linked_task.specs.LinkedTasks.{task_of_files};
ghost use Rattle.pddl_linked_plan.specs.LinkedSteps.{AreLinkedSteps};

use crate::atoms::{add_atom, add_atoms};
use pddl_file_lines::Outcome;
use pddl_linked_plan::Steps;
use pddl_linked_task::Task;
use pddl_row_driver::Lines;
use pddl_state::{Atom, AtomStore};
use pddl_valid::{Accepted, Refusal, Verdict, validate};
use std::alloc::Allocator;

/// Adds the atoms that hold at an end, and what the steps before it cost.
pub fn add_end<A: Allocator, C: Allocator, D: Allocator>(
    task: &Task<'_, '_, A, C>,
    atoms: &[Atom<D>],
    cost: u128,
    lines: &mut Lines,
) {
    add_atoms(task, atoms, lines);
    lines.word(b"cost");
    lines.shown(&cost);
    lines.end();
}

/// Adds words, and behind them a number from 0 as it is shown, from 1, and a mark.
fn add_counted(words: &[u8], number: usize, mark: &[u8], lines: &mut Lines) {
    lines.word(words);
    lines.shown(&number.saturating_add(1));
    lines.add(mark);
}

/// Adds the line of a plan that is not accepted.
pub fn add_refusal<A: Allocator, C: Allocator, D: Allocator>(
    task: &Task<'_, '_, A, C>,
    refusal: &Refusal<D>,
    lines: &mut Lines,
) -> Outcome {
    match refusal {
        Refusal::Precondition { happening, step } => {
            add_counted(b"invalid: happening", *happening, b",", lines);
            add_counted(b"step", *step as usize, b":", lines);
            lines.word(b"precondition is false");
        }
        Refusal::Interference {
            happening,
            first,
            second,
            atom,
        } => {
            add_counted(b"invalid: happening", *happening, b",", lines);
            add_counted(b"steps", *first as usize, b"", lines);
            add_counted(b"and", *second as usize, b"", lines);
            lines.word(b"interfere on");
            add_atom(task, atom, lines);
        }
        Refusal::Goal => lines.word(b"invalid: goal is false"),
    }
    lines.end();
    Outcome::Invalid
}

/// Adds the line of an accepted plan of so many steps, and its end, if that is asked for.
fn add_accepted<A: Allocator, C: Allocator, D: Allocator, E: Allocator, S: AtomStore<D>>(
    task: &Task<'_, '_, A, C>,
    count: usize,
    has_end: bool,
    accepted: &Accepted<D, E, S>,
    lines: &mut Lines,
) -> Outcome
    requires { S.owns accepted.now.store accepted.now.end }
{
    lines.word(b"valid:");
    lines.shown(&count);
    lines.word(b"steps in");
    lines.shown(&accepted.happenings.len());
    lines.word(b"happenings, total-cost");
    lines.shown(&accepted.cost);
    lines.end();
    if !has_end {
        return Outcome::Good;
    }
    match accepted.store.list(&accepted.end) {
        Ok(atoms) => add_end(task, &atoms, accepted.cost, lines),
        Err(_) => lines.refuse(),
    }
    Outcome::Good
}

/// Adds the line of the verdict on linked steps, and the end of an accepted plan, if that is asked for.
pub fn add_verdict<'m, 'a, 'b, 'c, A, B, C, D, S>(
    alloc: &'c D,
    has_end: bool,
    task: &Task<'m, 'a, A, B>,
    steps: &Steps<'b, C>,
    store: S,
    lines: &mut Lines,
) -> Outcome
where
    A: Allocator,
    B: Allocator,
    C: Allocator,
    D: Allocator,
    S: AtomStore<&'c D>,
    requires { AreLinkedSteps (task_of_files task.now) steps.now }
{
    match validate(alloc, task, steps, store) {
        Ok(Verdict::Accepted(accepted)) => {
            add_accepted(task, steps.len(), has_end, &accepted, lines)
        }
        Ok(Verdict::Refused(refusal)) => add_refusal(task, &refusal, lines),
        Err(_) => {
            lines.refuse();
            Outcome::Refused
        }
    }
}
