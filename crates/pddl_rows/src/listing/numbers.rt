//! The numbers of what a task names.

use pddl_file_lines::Outcome;
use pddl_linked_task::Task;
use pddl_row_driver::Lines;
use std::alloc::Allocator;

/// More than the number of objects of a task, where it can be counted.
pub fn past_objects<A: Allocator, C: Allocator>(task: &Task<'_, '_, A, C>) -> usize {
    let constants = task.domain().constants.len();
    let objects = task.problem().objects.len();
    constants.saturating_add(objects).saturating_add(1)
}

/// Adds a number, the name that has it, and the number of that name.
fn add_numbered(word: &[u8], number: usize, name: &[u8], again: Option<usize>, lines: &mut Lines) {
    lines.word(word);
    lines.shown(&number);
    lines.word(name);
    lines.shown_or_none(again);
    lines.end();
}

/// Adds each object with its number and the number of its name, and looks for some past the last.
fn add_objects<A: Allocator, C: Allocator>(task: &Task<'_, '_, A, C>, lines: &mut Lines) {
    for number in 0..past_objects(task) {
        if let Some(name) = task.object_name(number) {
            let name = name.as_bytes();
            add_numbered(b"object", number, name, task.object_number(name), lines);
        }
    }
}

/// Adds each predicate with its number and the number of its name, and looks for one past the last.
fn add_predicates<A: Allocator, C: Allocator>(task: &Task<'_, '_, A, C>, lines: &mut Lines) {
    for number in 0..task.domain().predicates.len().saturating_add(1) {
        if let Some(name) = task.predicate_name(number) {
            let name = name.as_bytes();
            add_numbered(
                b"predicate",
                number,
                name,
                task.predicate_number(name),
                lines,
            );
        }
    }
}

/// Adds the numbers of a task, and how many actions and items of `:init` its files have.
pub fn add_numbers<A: Allocator, C: Allocator>(
    task: &Task<'_, '_, A, C>,
    lines: &mut Lines,
) -> Outcome {
    add_objects(task, lines);
    add_predicates(task, lines);
    lines.word(b"actions");
    lines.shown(&task.domain().actions.len());
    lines.end();
    lines.word(b"init");
    lines.shown(&task.problem().init.len());
    lines.end();
    Outcome::Good
}
