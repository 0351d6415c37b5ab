//! Problems.

use super::domain::add_requirements;
use super::types::add_typed;
use pddl_file_lines::Outcome;
use pddl_problem::{Direction, InitItem, Metric, ObjectNames, Problem, let_go_problem};
use pddl_problem_reader::read_problem;
use pddl_row_driver::{Lines, add_file_fault};
use std::alloc::Allocator;

/// Adds a name and names of objects behind a word, and the line ends.
fn add_names<A: Allocator>(word: &[u8], name: &[u8], objects: &ObjectNames<A>, lines: &mut Lines) {
    lines.words(&[word, name]);
    for i in 0..objects.len() {
        lines.word(objects.at(i));
    }
    lines.end();
}

/// Adds a line for each item of `:init`.
fn add_init<A: Allocator>(items: &[InitItem<A>], lines: &mut Lines) {
    for item in items {
        let (word, name, objects) = match item {
            InitItem::Holds(fact) => ("holds", fact.predicate.as_bytes(), &fact.objects),
            InitItem::Fails(fact) => ("fails", fact.predicate.as_bytes(), &fact.objects),
            InitItem::Value(function, value) => {
                lines.word(b"value");
                lines.shown(&value.billionths());
                ("of", function.function.as_bytes(), &function.objects)
            }
        };
        add_names(word.as_bytes(), name, objects, lines);
    }
}

/// Adds a metric.
fn add_metric<A: Allocator>(metric: &Metric<A>, lines: &mut Lines) {
    let word = match metric.direction {
        Direction::Minimize => "minimize",
        Direction::Maximize => "maximize",
    };
    let function = &metric.function;
    add_names(
        word.as_bytes(),
        function.function.as_bytes(),
        &function.objects,
        lines,
    );
}

/// Adds a problem's parts.
fn add_parts<A: Allocator>(problem: &Problem<A>, lines: &mut Lines) -> Outcome {
    lines.line(&[b"problem", problem.name.as_bytes()]);
    lines.line(&[b"domain", problem.domain.as_bytes()]);
    add_requirements(&problem.requirements, lines);
    add_typed(b"object", &problem.objects, lines);
    add_init(&problem.init, lines);
    if let Some(metric) = &problem.metric {
        add_metric(metric, lines);
    }
    Outcome::Good
}

/// Adds the parts of the problem that a text spells.
pub fn add_problem<B: Allocator>(alloc: &B, text: &[u8], lines: &mut Lines) -> Outcome {
    match read_problem(alloc, text) {
        Ok(problem) => {
            let outcome = add_parts(&problem, lines);
            let_go_problem(problem);
            outcome
        }
        Err(fault) => add_file_fault(alloc, &fault, lines),
    }
}
