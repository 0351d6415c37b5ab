//! What a task answers to a line.

use super::numbers::past_objects;
use crate::command::Asked;
use pddl_file_lines::Outcome;
use pddl_formula::{TypeName, TypeNames};
use pddl_linked_task::Task;
use pddl_row_driver::{Lines, text_of};
use pddl_token::Name;
use std::alloc::Allocator;

/// Adds a name, and the number of the object and of the predicate of that name.
fn add_named<A: Allocator, C: Allocator>(
    task: &Task<'_, '_, A, C>,
    name: &[u8],
    lines: &mut Lines,
) {
    lines.word(name);
    lines.shown_or_none(task.object_number(name));
    lines.shown_or_none(task.predicate_number(name));
}

/// The name that a word is, if it is one.
fn name_of<'a, B: Allocator>(alloc: &'a B, word: &str, lines: &mut Lines) -> Option<Name<&'a B>> {
    lines.kept(Name::new(alloc, word.as_bytes()))
}

/// Adds whether a type is a subtype of another, where that has a name.
fn add_subtype<'a, A: Allocator, C: Allocator, B: Allocator>(
    alloc: &'a B,
    task: &Task<'_, '_, A, C>,
    sub: &Name<&'a B>,
    over: &str,
    lines: &mut Lines,
) {
    if let Some(over) = name_of(alloc, over, lines) {
        lines.shown(&task.is_a(sub, &over));
    }
}

/// Adds whether the first of the two types of a line is a subtype of the second, where both have names.
fn add_is_a<A: Allocator, C: Allocator, B: Allocator>(
    alloc: &B,
    task: &Task<'_, '_, A, C>,
    line: &str,
    lines: &mut Lines,
) {
    let (sub, over) = line.split_once(' ').unwrap_or((line, ""));
    if let Some(sub) = name_of(alloc, sub, lines) {
        add_subtype(alloc, task, &sub, over, lines);
    }
}

/// Adds a primitive, if a name is one, to those of a type.
fn add_primitive<N: Allocator>(
    name: Option<Name<N>>,
    types: &mut Vec<TypeName<N>, N>,
    lines: &mut Lines,
) {
    if let Some(name) = name {
        lines.push(types, TypeName::new(name));
    }
}

/// Adds the primitives of a line to those of a type.
fn add_primitives<'a, B: Allocator>(
    alloc: &'a B,
    line: &str,
    types: &mut Vec<TypeName<&'a B>, &'a B>,
    lines: &mut Lines,
) {
    for word in line.split(' ') {
        let name = name_of(alloc, word, lines);
        add_primitive(name, types, lines);
    }
}

/// Adds the numbers of the objects that fit a type, if there is one, as a list and one by one.
fn add_fits<A: Allocator, C: Allocator, N: Allocator, B: Allocator>(
    alloc: &B,
    task: &Task<'_, '_, A, C>,
    types: Option<TypeNames<N>>,
    lines: &mut Lines,
) {
    let Some(types) = &types else {
        return;
    };
    match task.fitting(alloc, types) {
        Ok(numbers) => lines.numbers(&numbers),
        Err(_) => lines.refuse(),
    }
    lines.word(b"-");
    for number in 0..past_objects(task) {
        if task.object_fits(number, types) {
            lines.shown(&number);
        }
    }
}

/// Adds the numbers of the objects that fit the type that has the primitives of a line.
fn add_fitting<A: Allocator, C: Allocator, B: Allocator>(
    alloc: &B,
    task: &Task<'_, '_, A, C>,
    line: &str,
    lines: &mut Lines,
) {
    let mut types = Vec::new(alloc);
    add_primitives(alloc, line, &mut types, lines);
    let types = lines.kept(TypeNames::new(alloc, types));
    add_fits(alloc, task, types, lines);
}

/// Adds the words of a line to others.
fn add_words<'t, B: Allocator>(line: &'t str, words: &mut Vec<&'t [u8], &B>, lines: &mut Lines) {
    for word in line.split(' ') {
        lines.push(words, Some(word.as_bytes()));
    }
}

/// Adds the cost of the function of objects that a line names, or `none`.
fn add_cost<A: Allocator, C: Allocator, B: Allocator>(
    alloc: &B,
    task: &Task<'_, '_, A, C>,
    line: &str,
    lines: &mut Lines,
) {
    let mut words = Vec::new(alloc);
    add_words(line, &mut words, lines);
    if let Some((function, objects)) = words.split_first() {
        lines.shown_or_none(task.cost(function, objects));
    }
}

/// Adds what a task answers to each line.
pub fn add_answers<A: Allocator, C: Allocator, B: Allocator>(
    alloc: &B,
    asked: Asked,
    task: &Task<'_, '_, A, C>,
    text: &[u8],
    lines: &mut Lines,
) -> Outcome {
    for line in text_of(text).lines() {
        match asked {
            Asked::Names => add_named(task, line.as_bytes(), lines),
            Asked::Subtypes => add_is_a(alloc, task, line, lines),
            Asked::Fitting => add_fitting(alloc, task, line, lines),
            Asked::Costs => add_cost(alloc, task, line, lines),
        }
        lines.end();
    }
    Outcome::Good
}
