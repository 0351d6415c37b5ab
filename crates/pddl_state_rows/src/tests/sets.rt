//! Two sets of a store, with the marks of what they are to have, where growths may be refused.
use super::operations::{Operation, done, marks_after};
use super::samples::{has_marked, is_least_marked, lists_marked};
use super::trials::Memory;
use pddl_state::{Atom, AtomStore};
use std::alloc::{AllocError, Allocator};

/// Two sets of a store, which has no others.
#[derive(Drop)]
pub struct TwoSets<'a, A: Allocator, S: AtomStore<A>> {
    pub store: S,
    pub first: S::Set,
    pub second: S::Set,
    /// The marks of the first and of the second.
    pub marks: (u128, u128),
    /// The atoms that are marked.
    pub atoms: &'a [Atom<A>],
}

/// Two empty sets.
pub fn empty_sets<A: Allocator, S: AtomStore<A>>(store: S, atoms: &[Atom<A>]) -> TwoSets<A, S>
    ensures first_own { S.owns result.store result.first }
    ensures second_own { S.owns result.store result.second }
{
    let first = store.empty();
    let second = store.empty();
    TwoSets {
        store,
        first,
        second,
        marks: (0, 0),
        atoms,
    }
}

/// Does an operation to the sets and to their marks, with an atom and its number. Where memory was refused, no set has changed,
/// and the operation does its work when it is called again.
pub fn runs<A: Allocator, S: AtomStore<A>>(
    refusing: &Memory,
    sets: &mut TwoSets<A, S>,
    step: (Operation, usize),
    atom: &Atom<A>,
) -> bool
    requires first_own { S.owns sets.old.store sets.old.first }
    requires second_own { S.owns sets.old.store sets.old.second }
    ensures first_own { S.owns sets.new.store sets.new.first }
    ensures second_own { S.owns sets.new.store sets.new.second }
{
    let is_done = is_done(sets, step.0, atom)
        || refusing.has_refused() && have_marked(sets) && is_done(sets, step.0, atom);
    sets.marks = marks_after(sets.marks, step.0, step.1);
    is_done
}

fn is_done<A: Allocator, S: AtomStore<A>>(
    sets: &mut TwoSets<A, S>,
    operation: Operation,
    atom: &Atom<A>,
) -> bool
    requires first_own { S.owns sets.old.store sets.old.first }
    requires second_own { S.owns sets.old.store sets.old.second }
    ensures first_own { S.owns sets.new.store sets.new.first }
    ensures second_own { S.owns sets.new.store sets.new.second }
{
    done(
        &mut sets.store,
        &mut sets.first,
        &mut sets.second,
        operation,
        atom,
    )
    .is_ok()
}

/// Whether each set has what is marked. Takes no memory.
pub fn have_marked<A: Allocator, S: AtomStore<A>>(sets: &TwoSets<A, S>) -> bool
    requires first_own { S.owns sets.now.store sets.now.first }
    requires second_own { S.owns sets.now.store sets.now.second }
{
    has_marked(&sets.store, &sets.first, sets.marks.0, sets.atoms)
        && has_marked(&sets.store, &sets.second, sets.marks.1, sets.atoms)
}

/// Whether what the sets have, singly and together, is what is marked. A call that is refused is called again.
pub fn agrees<A: Allocator, S: AtomStore<A>>(refusing: &Memory, sets: &TwoSets<A, S>) -> bool
    requires first_own { S.owns sets.now.store sets.now.first }
    requires second_own { S.owns sets.now.store sets.now.second }
{
    have_marked(sets)
        && lists(refusing, &sets.store, &sets.first, sets.marks.0, sets.atoms)
        && lists(
            refusing,
            &sets.store,
            &sets.second,
            sets.marks.1,
            sets.atoms,
        )
        && are_disjoint_as_marked(sets)
        && shares(refusing, sets)
}

fn lists<A: Allocator, S: AtomStore<A>>(
    refusing: &Memory,
    store: &S,
    set: &S::Set,
    marks: u128,
    atoms: &[Atom<A>],
) -> bool
    requires { S.owns store.now set.now }
{
    match store.list(set) {
        Ok(list) => is_list(list, marks, atoms),
        Err(AllocError) => {
            refusing.has_refused()
                && has_marked(store, set, marks, atoms)
                && match store.list(set) {
                    Ok(list) => is_list(list, marks, atoms),
                    Err(AllocError) => false,
                }
        }
    }
}

fn is_list<A: Allocator>(list: Vec<Atom<A>, A>, marks: u128, atoms: &[Atom<A>]) -> bool {
    let is_right = lists_marked(&list, marks, atoms);
    drop(list);
    is_right
}

/// Whether the sets are disjoint where no atom is marked of both, and only there. Takes no memory.
pub fn are_disjoint_as_marked<A: Allocator, S: AtomStore<A>>(sets: &TwoSets<A, S>) -> bool
    requires first_own { S.owns sets.now.store sets.now.first }
    requires second_own { S.owns sets.now.store sets.now.second }
{
    sets.store.disjoint(&sets.first, &sets.second) == (sets.marks.0 & sets.marks.1 == 0)
}

fn shares<A: Allocator, S: AtomStore<A>>(refusing: &Memory, sets: &TwoSets<A, S>) -> bool
    requires first_own { S.owns sets.now.store sets.now.first }
    requires second_own { S.owns sets.now.store sets.now.second }
{
    match least_shared(sets) {
        Ok(is_right) => is_right,
        Err(AllocError) => refusing.has_refused() && least_shared(sets).unwrap_or(false),
    }
}

fn least_shared<A: Allocator, S: AtomStore<A>>(sets: &TwoSets<A, S>) -> Result<bool, AllocError>
    requires first_own { S.owns sets.now.store sets.now.first }
    requires second_own { S.owns sets.now.store sets.now.second }
{
    let shared = sets.store.common(&sets.first, &sets.second)?;
    let is_right = is_least_marked(&shared, sets.marks.0 & sets.marks.1, sets.atoms);
    drop(shared);
    Ok(is_right)
}
