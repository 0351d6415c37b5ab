use super::operations::Operation;
use super::samples::has_marked;
use super::sets::{TwoSets, agrees, are_disjoint_as_marked, runs};
use super::trials::{Kind, Memory, Trial, goes_right};
use pddl_fakes::Refusing;
use pddl_state::{Atom, AtomStore};
use std::alloc::{Allocator, Global};
use std::process::Abort;

// Operations that make each set grow, from nothing and past its first word, and take from it.
const SCRIPT: [(Operation, usize); 12] = [
    (Operation::InsertInSecond, 3),
    (Operation::InsertInSecond, 66),
    (Operation::InsertInFirst, 3),
    (Operation::InsertInFirst, 9),
    (Operation::Unite, 0),
    (Operation::InsertInFirst, 41),
    (Operation::Subtract, 0),
    (Operation::InsertInSecond, 7),
    (Operation::Copy, 0),
    (Operation::Empty, 0),
    (Operation::InsertInFirst, 68),
    (Operation::Unite, 0),
];

/// Runs the script, and then the calls that take no memory.
pub fn runs_script<A: Allocator, S: AtomStore<A>>(
    refusing: &Memory,
    sets: &mut TwoSets<A, S>,
) -> bool
    requires first_own { S.owns sets.old.store sets.old.first }
    requires second_own { S.owns sets.old.store sets.old.second }
{
    for step in SCRIPT.iter() {
        if !runs_step(refusing, sets, *step) {
            return false;
        }
    }
    takes_no_memory(refusing, sets)
}

fn runs_step<A: Allocator, S: AtomStore<A>>(
    refusing: &Memory,
    sets: &mut TwoSets<A, S>,
    step: (Operation, usize),
) -> bool
    requires first_own { S.owns sets.old.store sets.old.first }
    requires second_own { S.owns sets.old.store sets.old.second }
    ensures first_own { S.owns sets.new.store sets.new.first }
    ensures second_own { S.owns sets.new.store sets.new.second }
{
    match sets.atoms.get(step.1) {
        Some(atom) => runs(refusing, sets, step, atom) && agrees(refusing, sets),
        None => false,
    }
}

/// The calls that take no memory: where the next growth would be refused, none is asked for.
fn takes_no_memory<A: Allocator, S: AtomStore<A>>(
    refusing: &Memory,
    sets: &mut TwoSets<A, S>,
) -> bool
    requires first_own { S.owns sets.old.store sets.old.first }
    requires second_own { S.owns sets.old.store sets.old.second }
{
    let before = refusing.has_refused();
    let none = sets.store.empty();
    let is_right = reads_and_takes(sets, &none);
    drop(none);
    is_right && refusing.has_refused() == before
}

fn reads_and_takes<A: Allocator, S: AtomStore<A>>(sets: &mut TwoSets<A, S>, none: &S::Set) -> bool
    requires first_own { S.owns sets.old.store sets.old.first }
    requires second_own { S.owns sets.old.store sets.old.second }
    requires none_own { S.owns sets.old.store none.now }
{
    let rest = sets.marks.1 & !sets.marks.0;
    has_marked(&sets.store, none, 0, sets.atoms)
        && sets.store.disjoint(none, &sets.first)
        && are_disjoint_as_marked(sets)
        && has_after(&sets.store, &mut sets.second, &sets.first, rest, sets.atoms)
        && has_after(&sets.store, &mut sets.second, none, rest, sets.atoms)
}

fn has_after<A: Allocator, S: AtomStore<A>>(
    store: &S,
    set: &mut S::Set,
    less: &S::Set,
    marks: u128,
    atoms: &[Atom<A>],
) -> bool
    requires set_own { S.owns store.now set.old }
    requires less_own { S.owns store.now less.now }
    ensures { S.owns store.now set.new }
{
    store.subtract(set, less);
    has_marked(store, set, marks, atoms)
}

/// With each growth refused a store is made, its empty sets are read and taken from, and none takes an atom.
pub fn holds_nothing<A: Allocator, S: AtomStore<A>>(alloc: A, mut store: S) -> bool {
    let atom = Atom {
        predicate: 4,
        args: Vec::new(alloc),
    };
    let mut first = store.empty();
    let second = store.empty();
    let is_right = stays_empty(&mut store, &mut first, &second, &atom);
    drop(second);
    drop(first);
    drop(atom);
    drop(store);
    is_right
}

fn stays_empty<A: Allocator, S: AtomStore<A>>(
    store: &mut S,
    first: &mut S::Set,
    second: &S::Set,
    atom: &Atom<A>,
) -> bool
    requires first_own { S.owns store.old first.old }
    requires second_own { S.owns store.old second.now }
{
    let is_empty = !store.has(first, atom)
        && store.insert(first, atom).is_err()
        && !store.has(first, atom)
        && store.disjoint(first, second);
    store.subtract(first, second);
    is_empty && !store.has(first, atom)
}

// Runs the script with each growth refused in turn, until none is.
fn refused_in_turn(rt: &impl Abort, alloc: Global, kind: Kind) {
    let mut runs = 0u64;
    for n in 1..2000u64 {
        if !is_refused(rt, alloc, kind, n) {
            break;
        }
        runs = n;
    }
    // The last run met no refusal: each growth was refused once, and those of the samples were 72.
    assert!(rt; runs > 100 && runs < 1999, "{runs} runs");
}

fn is_refused(rt: &impl Abort, alloc: Global, kind: Kind, n: u64) -> bool {
    let alloc = Refusing::nth(alloc, n);
    let is_right = goes_right(&alloc, &alloc, kind, Trial::Script);
    let has_refused = alloc.has_refused();
    drop(alloc);
    assert!(rt; is_right, "growth {n} refused");
    has_refused
}

#[test]
fn sorted_store_refused_in_turn(rt: HostRuntime) {
    refused_in_turn(&rt, rt.alloc(), Kind::Sorted);
}

#[test]
fn bit_store_refused_in_turn(rt: HostRuntime) {
    refused_in_turn(&rt, rt.alloc(), Kind::Bits);
}

#[test]
fn every_growth_refused(rt: HostRuntime) {
    nothing_held(&rt, rt.alloc(), Kind::Sorted);
    nothing_held(&rt, rt.alloc(), Kind::Bits);
}

fn nothing_held(rt: &impl Abort, alloc: Global, kind: Kind) {
    let alloc = Refusing::each(alloc);
    let is_right = goes_right(&alloc, &alloc, kind, Trial::Nothing);
    drop(alloc);
    assert!(rt; is_right);
}
