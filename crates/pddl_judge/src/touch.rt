//! What a step touches in a state, and what two steps both touch.

ghost use Rattle.std.specs.Prelude.{◌≡◌, ◌<◌, ◌↔◌, false, IfOk, OnOk, IsTrue, ◌&&◌, MatchOption};
ghost use Rattle.pddl_state.specs.Atoms.{AtomValue};
ghost use Rattle.pddl_state.specs.AtomSets.{no_atoms, union, intersection, difference};
ghost use Rattle.pddl_judge.specs.Touches.{touch_in, touch_of, join_of, Owned, crossing, overlap, Apart};
ghost use Rattle.pddl_judge.specs.Verdicts.{IsLeast};

use crate::course::Course;
use pddl_state::{Atom, AtomStore};
use std::alloc::{AllocError, Allocator};

/// The sets of atoms that are read, added and deleted.
#[derive(Drop)]
pub(crate) struct Touched<T> {
    pub reads: T,
    pub adds: T,
    pub dels: T,
}

/// No atom at all.
pub(crate) fn nothing_touched<A: Allocator, S: AtomStore<A>>(store: &S) -> Touched<S::Set>
    ensures own { Owned (S.owns store.now) result }
    ensures content { touch_in (S.content store.now) result ≡ record { reads = no_atoms; adds = no_atoms; dels = no_atoms } }
{
    Touched {
        reads: store.empty(),
        adds: store.empty(),
        dels: store.empty(),
    }
}

/// What a step touches in a state.
pub(crate) fn touch<A: Allocator, S: AtomStore<A>, P: Course<A, S>>(
    course: &P,
    step: u32,
    store: &mut S,
    state: &S::Set,
) -> Result<Touched<S::Set>, AllocError>
    requires step { step < P.count_of course.now }
    requires own { S.owns store.old state.now }
    ensures own { IfOk result (λ t. Owned (S.owns store.new) t) }
    ensures content { IfOk result (λ t. touch_in (S.content store.new) t ≡ touch_of (P.steps_of course.now step) (S.content store.old state.now)) }
    ensures others_own { (t : S.Set) → S.owns store.old t → S.owns store.new t }
    ensures others { (t : S.Set) → S.owns store.old t → S.content store.new t ≡ S.content store.old t }
{
    let reads = course.reads(step, store)?;
    let (adds, dels) = course.fired(step, store, state)?;
    Ok(Touched { reads, adds, dels })
}

/// Whether no atom is added or deleted by the first and read by the second, or added by the first and deleted by the second.
fn do_not_cross<A: Allocator, S: AtomStore<A>>(
    store: &S,
    one: &Touched<S::Set>,
    other: &Touched<S::Set>,
) -> bool
    requires one_own { Owned (S.owns store.now) one.now }
    requires other_own { Owned (S.owns store.now) other.now }
    ensures { IsTrue result ↔ ((a : AtomValue) → crossing (touch_in (S.content store.now) one.now) (touch_in (S.content store.now) other.now) a ≡ false) }
{
    store.disjoint(&one.adds, &other.reads)
        && store.disjoint(&one.dels, &other.reads)
        && store.disjoint(&one.adds, &other.dels)
}

/// Whether no atom is added or deleted by one and read by the other, or added by one and deleted by the other.
pub(crate) fn are_apart<A: Allocator, S: AtomStore<A>>(
    store: &S,
    one: &Touched<S::Set>,
    other: &Touched<S::Set>,
) -> bool
    requires one_own { Owned (S.owns store.now) one.now }
    requires other_own { Owned (S.owns store.now) other.now }
    ensures { IsTrue result ↔ Apart (touch_in (S.content store.now) one.now) (touch_in (S.content store.now) other.now) }
{
    do_not_cross(store, one, other) && do_not_cross(store, other, one)
}

/// Adds what a step touches to what others touch.
pub(crate) fn join<A: Allocator, S: AtomStore<A>>(
    store: &S,
    all: &mut Touched<S::Set>,
    one: &Touched<S::Set>,
) -> Result<(), AllocError>
    requires all_own { Owned (S.owns store.now) all.old }
    requires one_own { Owned (S.owns store.now) one.now }
    ensures own { IfOk result (λ _. Owned (S.owns store.now) all.new) }
    ensures content { IfOk result (λ _. touch_in (S.content store.now) all.new ≡ join_of (touch_in (S.content store.now) all.old) (touch_in (S.content store.now) one.now)) }
{
    store.unite(&mut all.reads, &one.reads)?;
    store.unite(&mut all.adds, &one.adds)?;
    store.unite(&mut all.dels, &one.dels)
}

/// The atoms of a set that another lacks.
fn without<A: Allocator, S: AtomStore<A>>(
    store: &S,
    a: &S::Set,
    b: &S::Set,
) -> Result<S::Set, AllocError>
    requires a_own { S.owns store.now a.now }
    requires b_own { S.owns store.now b.now }
    ensures own { IfOk result (λ c. S.owns store.now c) }
    ensures content { IfOk result (λ c. S.content store.now c ≡ difference (S.content store.now a.now) (S.content store.now b.now)) }
{
    let mut rest = store.copy(a)?;
    store.subtract(&mut rest, b);
    Ok(rest)
}

/// Adds the atoms that two sets have in common to a set.
fn add_both<A: Allocator, S: AtomStore<A>>(
    store: &S,
    all: &mut S::Set,
    a: &S::Set,
    b: &S::Set,
) -> Result<(), AllocError>
    requires all_own { S.owns store.now all.old }
    requires a_own { S.owns store.now a.now }
    requires b_own { S.owns store.now b.now }
    ensures own { S.owns store.now all.new }
    ensures content { OnOk result (S.content store.now all.new ≡ union (S.content store.now all.old) (intersection (S.content store.now a.now) (S.content store.now b.now))) }
{
    let rest = without(store, a, b)?;
    let common = without(store, a, &rest)?;
    store.unite(all, &common)
}

/// Adds the atoms that one adds or deletes and the other reads, and those that one adds and the other deletes.
fn add_crossing<A: Allocator, S: AtomStore<A>>(
    store: &S,
    all: &mut S::Set,
    one: &Touched<S::Set>,
    other: &Touched<S::Set>,
) -> Result<(), AllocError>
    requires all_own { S.owns store.now all.old }
    requires one_own { Owned (S.owns store.now) one.now }
    requires other_own { Owned (S.owns store.now) other.now }
    ensures own { S.owns store.now all.new }
    ensures content { OnOk result (S.content store.now all.new ≡ union (S.content store.now all.old) (crossing (touch_in (S.content store.now) one.now) (touch_in (S.content store.now) other.now))) }
{
    add_both(store, all, &one.adds, &other.reads)?;
    add_both(store, all, &one.dels, &other.reads)?;
    add_both(store, all, &one.adds, &other.dels)
}

/// The least of the atoms that keep two steps from being apart; None where there is none.
pub(crate) fn least_clash<A: Allocator, S: AtomStore<A>>(
    store: &S,
    one: &Touched<S::Set>,
    other: &Touched<S::Set>,
) -> Result<Option<Atom<A>>, AllocError>
    requires one_own { Owned (S.owns store.now) one.now }
    requires other_own { Owned (S.owns store.now) other.now }
    ensures { IfOk result (λ found. MatchOption found (Apart (touch_in (S.content store.now) one.now) (touch_in (S.content store.now) other.now)) (λ a. IsLeast a (overlap (touch_in (S.content store.now) one.now) (touch_in (S.content store.now) other.now)))) }
{
    let mut clash = store.empty();
    add_crossing(store, &mut clash, one, other)?;
    add_crossing(store, &mut clash, other, one)?;
    store.common(&clash, &clash)
}
