//! What is tried in both stores.
use super::memory::{holds_nothing, runs_script};
use super::samples::samples;
use super::sets::{TwoSets, empty_sets};
use super::stores::{merges, runs_draws};
use pddl_bit_store::BitStore;
use pddl_fakes::Refusing;
use pddl_state::{AtomStore, SortedStore};
use std::alloc::{Allocator, Global};

/// Memory of which growths may be refused.
pub type Memory = Refusing<Global>;

/// Which store.
#[derive(Clone, Copy)]
pub enum Kind {
    Sorted,
    Bits,
}

/// What is tried in a store.
#[derive(Clone, Copy)]
pub enum Trial {
    /// A script of operations, and the calls that take no memory.
    Script,
    /// Four hundred operations that are drawn.
    Draws,
    /// A caller that knows only the laws of every store.
    Merges,
    /// A store that gets no memory.
    Nothing,
}

/// Whether what is tried in a new store goes right. The first allocator tells whether a growth was refused; the store grows by the
/// other, which is the first one, lent, where growths are refused.
pub fn goes_right<A: Allocator + Copy>(
    refusing: &Memory,
    alloc: A,
    kind: Kind,
    trial: Trial,
) -> bool {
    match kind {
        Kind::Sorted => goes_right_in(refusing, alloc, SortedStore::new(alloc), trial),
        Kind::Bits => goes_right_in(refusing, alloc, BitStore::new(alloc), trial),
    }
}

fn goes_right_in<A: Allocator + Copy, S: AtomStore<A>>(
    refusing: &Memory,
    alloc: A,
    store: S,
    trial: Trial,
) -> bool {
    match trial {
        Trial::Nothing => holds_nothing(alloc, store),
        _ => serves(refusing, alloc, store, trial),
    }
}

// What is tried with atoms: all but `Nothing`. Where the atoms are refused, nothing else is tried.
fn serves<A: Allocator + Copy, S: AtomStore<A>>(
    refusing: &Memory,
    alloc: A,
    store: S,
    trial: Trial,
) -> bool {
    let Ok(atoms) = samples(alloc, 70) else {
        return refusing.has_refused();
    };
    let mut sets = empty_sets(store, &atoms);
    let is_right = runs_trial(refusing, alloc, &mut sets, trial);
    drop(sets);
    drop(atoms);
    is_right
}

fn runs_trial<A: Allocator + Copy, S: AtomStore<A>>(
    refusing: &Memory,
    alloc: A,
    sets: &mut TwoSets<A, S>,
    trial: Trial,
) -> bool
    requires first_own { S.owns sets.old.store sets.old.first }
    requires second_own { S.owns sets.old.store sets.old.second }
{
    match trial {
        Trial::Script => runs_script(refusing, sets),
        Trial::Draws => runs_draws(refusing, alloc, sets),
        _ => merges(&mut sets.store, sets.atoms),
    }
}

/// Whether it goes right in a store that grows by an allocator which refuses nothing.
pub fn goes_right_unrefused<A: Allocator + Copy>(
    global: Global,
    alloc: A,
    kind: Kind,
    trial: Trial,
) -> bool {
    let refusing = Refusing::nth(global, 0);
    goes_right(&refusing, alloc, kind, trial)
}
