//! Atoms.

use pddl_file_lines::Outcome;
use pddl_linked_plan::initial_atoms;
use pddl_linked_task::Task;
use pddl_row_driver::Lines;
use pddl_state::{Atom, AtomStore};
use std::alloc::Allocator;

/// Adds the numbers of each atom.
fn add_numbered<A: Allocator>(atoms: &[Atom<A>], lines: &mut Lines) {
    for atom in atoms {
        lines.shown(&atom.predicate);
        lines.numbers(&atom.args);
        lines.end();
    }
}

/// Adds the numbers of the atoms that hold at first.
pub fn add_first<A: Allocator, C: Allocator, B: Allocator>(
    alloc: &B,
    task: &Task<'_, '_, A, C>,
    lines: &mut Lines,
) -> Outcome {
    match initial_atoms(alloc, task) {
        Ok(atoms) => add_numbered(&atoms, lines),
        Err(_) => lines.refuse(),
    }
    Outcome::Good
}

/// Adds an atom by the names of its numbers.
pub fn add_atom<A: Allocator, C: Allocator, D: Allocator>(
    task: &Task<'_, '_, A, C>,
    atom: &Atom<D>,
    lines: &mut Lines,
) {
    if let Some(name) = task.predicate_name(atom.predicate) {
        lines.word(b"(");
        lines.add(name.as_bytes());
        for number in atom.args.iter() {
            if let Some(name) = task.object_name(*number) {
                lines.word(name.as_bytes());
            }
        }
        lines.add(b")");
    }
}

/// Adds atoms by the names of their numbers.
pub fn add_atoms<A: Allocator, C: Allocator, D: Allocator>(
    task: &Task<'_, '_, A, C>,
    atoms: &[Atom<D>],
    lines: &mut Lines,
) {
    for atom in atoms {
        add_atom(task, atom, lines);
    }
}

/// Adds the atoms of a set of a store.
pub fn add_set<A: Allocator, C: Allocator, D: Allocator, S: AtomStore<D>>(
    task: &Task<'_, '_, A, C>,
    store: &S,
    set: &S::Set,
    lines: &mut Lines,
)
    requires { S.owns store.now set.now }
{
    match store.list(set) {
        Ok(atoms) => add_atoms(task, &atoms, lines),
        Err(_) => lines.refuse(),
    }
}
