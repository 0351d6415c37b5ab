use super::operations::Operation;
use super::samples::{is_least_marked, lists_marked, mark, sample, samples};
use super::sets::{TwoSets, agrees, runs};
use super::trials::{Kind, Memory, Trial, goes_right_unrefused};
use crate::caller::{merge, two_sets};
use pddl_state::{Atom, AtomStore};
use std::alloc::Allocator;
use std::test::Fail;

// A fixed sequence of draws, and what each stands for.
fn drawn(draw: u32) -> (Operation, usize) {
    let operation = match draw / 70 % 16 {
        0..=5 => Operation::InsertInFirst,
        6..=10 => Operation::InsertInSecond,
        11 | 12 => Operation::Unite,
        13 => Operation::Subtract,
        14 => Operation::Copy,
        _ => Operation::Empty,
    };
    (operation, (draw % 70) as usize)
}

/// Four hundred operations on two sets of a store, each compared with what it does to their marks.
pub fn runs_draws<A: Allocator + Copy, S: AtomStore<A>>(
    refusing: &Memory,
    alloc: A,
    sets: &mut TwoSets<A, S>,
) -> bool
    requires first_own { S.owns sets.old.store sets.old.first }
    requires second_own { S.owns sets.old.store sets.old.second }
{
    let mut draw = 1u32;
    for _ in 0..400 {
        draw = (draw % 65536 * 1103 + 12345) % 65536;
        if !runs_draw(refusing, alloc, sets, drawn(draw)) {
            return false;
        }
    }
    true
}

fn runs_draw<A: Allocator + Copy, S: AtomStore<A>>(
    refusing: &Memory,
    alloc: A,
    sets: &mut TwoSets<A, S>,
    step: (Operation, usize),
) -> bool
    requires first_own { S.owns sets.old.store sets.old.first }
    requires second_own { S.owns sets.old.store sets.old.second }
    ensures first_own { S.owns sets.new.store sets.new.first }
    ensures second_own { S.owns sets.new.store sets.new.second }
{
    let Ok(atom) = sample(alloc, step.1) else {
        return false;
    };
    let is_done = runs(refusing, sets, step, &atom);
    drop(atom);
    is_done && agrees(refusing, sets)
}

#[test]
fn both_stores_keep_to_the_marks(rt: HostRuntime) {
    let alloc = rt.alloc();
    assert!(rt;
        goes_right_unrefused(alloc, alloc, Kind::Sorted, Trial::Draws),
        "sorted store"
    );
    assert!(rt;
        goes_right_unrefused(alloc, alloc, Kind::Bits, Trial::Draws),
        "bit store"
    );
    // A lent allocator serves too.
    assert!(rt;
        goes_right_unrefused(alloc, &alloc, Kind::Bits, Trial::Draws),
        "lent allocator"
    );
}

// Whether a set that is merged with another had the first marks in common with it, of which the least is told, got the second from it
// and has the third.
fn merges_to<A: Allocator, S: AtomStore<A>>(
    store: &S,
    set: &mut S::Set,
    more: &S::Set,
    marks: (u128, u128, u128),
    atoms: &[Atom<A>],
) -> bool
    requires set_own { S.owns store.now set.old }
    requires more_own { S.owns store.now more.now }
{
    let Ok(merged) = merge(store, set, more) else {
        return false;
    };
    let (shared, added, all) = marks;
    let is_right = is_least_marked(&merged.shared, shared, atoms)
        && lists_marked(&merged.added, added, atoms)
        && lists_marked(&merged.all, all, atoms);
    drop(merged);
    is_right
}

/// The sets of atoms 7 and of 7 and 60 are merged with those of 60 and of 60 and 3.
pub fn merges<A: Allocator, S: AtomStore<A>>(store: &mut S, atoms: &[Atom<A>]) -> bool {
    if atoms.len() != 70 {
        return false;
    }
    let Ok(mut sets) = two_sets(store, &atoms[7], &atoms[60]) else {
        return false;
    };
    let Ok(others) = two_sets(store, &atoms[60], &atoms[3]) else {
        return false;
    };
    both_merge(store, &mut sets, &others, atoms)
}

fn both_merge<A: Allocator, S: AtomStore<A>>(
    store: &S,
    sets: &mut (S::Set, S::Set),
    others: &(S::Set, S::Set),
    atoms: &[Atom<A>],
) -> bool
    requires one_own { S.owns store.now sets.old.0 }
    requires two_own { S.owns store.now sets.old.1 }
    requires more_own { S.owns store.now others.now.0 }
    requires most_own { S.owns store.now others.now.1 }
{
    let of_one = (0, mark(60), mark(7) | mark(60));
    let of_two = (mark(60), mark(3), mark(3) | mark(7) | mark(60));
    merges_to(store, &mut sets.0, &others.0, of_one, atoms)
        && merges_to(store, &mut sets.1, &others.1, of_two, atoms)
}

#[test]
fn both_stores_serve_a_caller(rt: HostRuntime) {
    assert!(rt;
        goes_right_unrefused(rt.alloc(), rt.alloc(), Kind::Sorted, Trial::Merges),
        "sorted store"
    );
    assert!(rt;
        goes_right_unrefused(rt.alloc(), rt.alloc(), Kind::Bits, Trial::Merges),
        "bit store"
    );
}

#[test]
fn atoms_rise(rt: HostRuntime) -> Result<(), Fail> {
    let atoms = samples(rt.alloc(), 70)?;
    let is_right = rise(rt.alloc(), &atoms);
    drop(atoms);
    assert!(rt; is_right);
    Ok(())
}

// Whether each atom comes before the next and differs from it, and is equal to its copy.
fn rise<A: Allocator + Copy>(alloc: A, atoms: &[Atom<A>]) -> bool {
    for number in 1..atoms.len() {
        let (atom, next) = (&atoms[number - 1], &atoms[number]);
        let is_right = *atom < *next && *atom != *next && is_copied(alloc, atom);
        if !is_right {
            return false;
        }
    }
    true
}

// Whether an atom is equal to its copy.
fn is_copied<A: Allocator>(alloc: A, atom: &Atom<A>) -> bool {
    let Ok(copy) = atom.copy(alloc) else {
        return false;
    };
    let is_equal = *atom == copy;
    drop(copy);
    is_equal
}
