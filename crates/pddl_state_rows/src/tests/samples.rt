//! Atoms and marks: a set of the atoms of `samples` is also a number whose bit n says whether atom n is in it.
use pddl_state::{Atom, AtomStore};
use std::alloc::{AllocError, Allocator};

/// So many atoms, each after the one before it: ten to a predicate, with no arguments, one or two.
pub fn samples<A: Allocator + Copy>(alloc: A, count: usize) -> Result<Vec<Atom<A>, A>, AllocError> {
    let mut atoms = Vec::new(alloc);
    for number in 0..count {
        atoms.push(sample(alloc, number)?)?;
    }
    Ok(atoms)
}

/// The atom of a number. The arguments of ten atoms in turn are none, 0, 0 0, 0 1, 1, 1 0, 1 1, 2, 2 0 and 2 1.
pub fn sample<A: Allocator + Copy>(alloc: A, number: usize) -> Result<Atom<A>, AllocError> {
    let mut args = Vec::new(alloc);
    if number % 10 > 0 {
        let next = number % 10 - 1;
        args.push(next / 3)?;
        if next % 3 > 0 {
            args.push(next % 3 - 1)?;
        }
    }
    Ok(Atom {
        predicate: number / 10,
        args,
    })
}

/// Whether a bit is marked.
pub fn is_marked(marks: u128, number: usize) -> bool {
    number < 128 && marks >> number & 1 == 1
}

/// The marks of one atom.
pub fn mark(number: usize) -> u128 {
    if number < 128 { 1 << number } else { 0 }
}

/// Whether a set has the marked atoms and no other. Takes no memory.
pub fn has_marked<A: Allocator, S: AtomStore<A>>(
    store: &S,
    set: &S::Set,
    marks: u128,
    atoms: &[Atom<A>],
) -> bool
    requires { S.owns store.now set.now }
{
    for number in 0..atoms.len() {
        if store.has(set, &atoms[number]) != is_marked(marks, number) {
            return false;
        }
    }
    true
}

/// Whether a list has the marked atoms in order, each once, and no other.
pub fn lists_marked<A: Allocator>(list: &[Atom<A>], marks: u128, atoms: &[Atom<A>]) -> bool {
    let mut place = 0;
    for number in 0..atoms.len() {
        if is_marked(marks, number) {
            if place >= list.len() || list[place] != atoms[number] {
                return false;
            }
            place += 1;
        }
    }
    place == list.len()
}

/// Whether an atom is the least that is marked, or there is none and no atom is marked.
pub fn is_least_marked<A: Allocator>(
    found: &Option<Atom<A>>,
    marks: u128,
    atoms: &[Atom<A>],
) -> bool {
    match (found, atoms.get(marks.trailing_zeros() as usize)) {
        (Some(atom), Some(least)) => *atom == *least,
        (None, _) => marks == 0,
        _ => false,
    }
}
