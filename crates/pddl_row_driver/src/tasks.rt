//! Listings of linked tasks.

use crate::faults::{add_file_fault, add_link_fault};
use crate::lines::Lines;
use crate::row::Files;
use pddl_domain::{Domain, let_go_domain};
use pddl_domain_reader::read_domain;
use pddl_file_lines::Outcome;
use pddl_link::link;
use pddl_linked_task::{Task, let_go_task};
use pddl_problem::{Problem, let_go_problem};
use pddl_problem_reader::read_problem;
use std::alloc::Allocator;

/// What is listed of a task.
pub trait OfTask: Copy {
    /// Adds what is listed of the task of the first two files.
    fn add<A: Allocator, C: Allocator, B: Allocator>(
        self,
        alloc: &B,
        task: &Task<'_, '_, A, C>,
        files: Files<'_>,
        lines: &mut Lines,
    ) -> Outcome;
}

/// Links a domain and a problem, and adds what is listed of their task.
fn add_linked<A: Allocator, B: Allocator, T: OfTask>(
    alloc: &B,
    listed: T,
    domain: &Domain<A>,
    problem: &Problem<A>,
    files: Files<'_>,
    lines: &mut Lines,
) -> Outcome {
    match link(alloc, domain, problem) {
        Ok(task) => {
            let outcome = listed.add(alloc, &task, files, lines);
            let_go_task(task);
            outcome
        }
        Err(fault) => add_link_fault(alloc, fault, lines),
    }
}

/// Adds what is listed of the task of a domain and of the problem in the second file, and once more of the same domain and problem,
/// where memory was refused.
fn add_with_problem<'a, B: Allocator, T: OfTask>(
    alloc: &'a B,
    listed: T,
    domain: &Domain<&'a B>,
    files: Files<'_>,
    lines: &mut Lines,
) -> Outcome {
    match read_problem(alloc, files.second) {
        Ok(problem) => {
            let start = lines.size();
            let mut outcome = add_linked(alloc, listed, domain, &problem, files, lines);
            if lines.begin_again(start) {
                outcome = add_linked(alloc, listed, domain, &problem, files, lines);
            }
            let_go_problem(problem);
            outcome
        }
        Err(fault) => add_file_fault(alloc, &fault, lines),
    }
}

/// Adds what is listed of the task of the first two files, or the fault of one of them.
pub fn add_task<B: Allocator, T: OfTask>(
    alloc: &B,
    listed: T,
    files: Files<'_>,
    lines: &mut Lines,
) -> Outcome {
    match read_domain(alloc, files.first) {
        Ok(domain) => {
            let outcome = add_with_problem(alloc, listed, &domain, files, lines);
            let_go_domain(domain);
            outcome
        }
        Err(fault) => add_file_fault(alloc, &fault, lines),
    }
}
