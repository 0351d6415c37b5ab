//! Operations on two sets of a store, and on their marks.
use super::samples::mark;
use pddl_state::{Atom, AtomStore};
use std::alloc::{AllocError, Allocator};

/// What is done to two sets, with an atom.
#[derive(Clone, Copy)]
pub enum Operation {
    InsertInFirst,
    InsertInSecond,
    Unite,
    Subtract,
    Copy,
    Empty,
}

/// Does it to the sets.
pub fn done<A: Allocator, S: AtomStore<A>>(
    store: &mut S,
    first: &mut S::Set,
    second: &mut S::Set,
    operation: Operation,
    atom: &Atom<A>,
) -> Result<(), AllocError>
    requires first_own { S.owns store.old first.old }
    requires second_own { S.owns store.old second.old }
    ensures first_own { S.owns store.new first.new }
    ensures second_own { S.owns store.new second.new }
{
    match operation {
        Operation::InsertInFirst => store.insert(first, atom),
        Operation::InsertInSecond => store.insert(second, atom),
        Operation::Unite => store.unite(first, second),
        Operation::Subtract => {
            store.subtract(second, first);
            Ok(())
        }
        Operation::Copy => becomes_copy(store, second, first),
        Operation::Empty => {
            *first = store.empty();
            Ok(())
        }
    }
}

fn becomes_copy<A: Allocator, S: AtomStore<A>>(
    store: &S,
    set: &mut S::Set,
    other: &S::Set,
) -> Result<(), AllocError>
    requires set_own { S.owns store.now set.old }
    requires other_own { S.owns store.now other.now }
    ensures { S.owns store.now set.new }
{
    *set = store.copy(other)?;
    Ok(())
}

/// Does it to their marks.
pub fn marks_after(marks: (u128, u128), operation: Operation, number: usize) -> (u128, u128) {
    let (first, second) = marks;
    match operation {
        Operation::InsertInFirst => (first | mark(number), second),
        Operation::InsertInSecond => (first, second | mark(number)),
        Operation::Unite => (first | second, second),
        Operation::Subtract => (first, second & !first),
        Operation::Copy => (first, first),
        Operation::Empty => (0, second),
    }
}
