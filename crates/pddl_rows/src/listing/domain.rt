//! Domains.

use super::types::{add_typed, add_types};
use pddl_domain::{
    Action, DeclaredFunction, DeclaredPredicate, DeclaredType, Domain, let_go_domain,
};
use pddl_domain_reader::read_domain;
use pddl_file_lines::Outcome;
use pddl_row_driver::{Lines, add_file_fault};
use pddl_token::Name;
use std::alloc::Allocator;

/// Adds a line for each requirement.
pub fn add_requirements<A: Allocator>(flags: &[Name<A>], lines: &mut Lines) {
    for flag in flags {
        lines.line(&[b"requirement", flag.as_bytes()]);
    }
}

/// Adds each declared type and its parent.
fn add_declared_types<A: Allocator>(types: &[DeclaredType<A>], lines: &mut Lines) {
    for declared in types {
        lines.line(&[
            b"type",
            declared.name.as_bytes(),
            declared.parent.as_bytes(),
        ]);
    }
}

/// Adds each declared predicate and its parameters.
fn add_predicates<A: Allocator>(predicates: &[DeclaredPredicate<A>], lines: &mut Lines) {
    for declared in predicates {
        lines.line(&[b"predicate", declared.predicate.as_bytes()]);
        add_typed(b"- parameter", &declared.parameters, lines);
    }
}

/// Adds each declared function, the type of its result, and its parameters.
fn add_functions<A: Allocator>(functions: &[DeclaredFunction<A>], lines: &mut Lines) {
    for declared in functions {
        lines.words(&[b"function", declared.name.as_bytes()]);
        add_types(&declared.result, lines);
        lines.end();
        add_typed(b"- parameter", &declared.parameters, lines);
    }
}

/// Adds each action and its parameters.
fn add_actions<A: Allocator>(actions: &[Action<A>], lines: &mut Lines) {
    for action in actions {
        lines.line(&[b"action", action.name.as_bytes()]);
        add_typed(b"- parameter", &action.parameters, lines);
    }
}

/// Adds a domain's parts.
fn add_parts<A: Allocator>(domain: &Domain<A>, lines: &mut Lines) -> Outcome {
    lines.line(&[b"domain", domain.name.as_bytes()]);
    add_requirements(&domain.requirements, lines);
    add_declared_types(&domain.types, lines);
    add_typed(b"constant", &domain.constants, lines);
    add_predicates(&domain.predicates, lines);
    add_functions(&domain.functions, lines);
    add_actions(&domain.actions, lines);
    Outcome::Good
}

/// Adds the parts of the domain that a text spells.
pub fn add_domain<B: Allocator>(alloc: &B, text: &[u8], lines: &mut Lines) -> Outcome {
    match read_domain(alloc, text) {
        Ok(domain) => {
            let outcome = add_parts(&domain, lines);
            let_go_domain(domain);
            outcome
        }
        Err(fault) => add_file_fault(alloc, &fault, lines),
    }
}
