//! What conditions and changes read.

ghost use Rattle.std.specs.Prelude.{◌≡◌, ◌||◌, ◌∷◌, OnOk};
ghost use Rattle.std.specs.List.{list_any};
ghost use Rattle.pddl_compiled.specs.Views.{condition_view, conditions_view, change_view, changes_view, frame_view};
ghost use Rattle.pddl_compiled.specs.CompiledMeaning.{some_tested, some_tested_in};
ghost use Rattle.pddl_evaluation.specs.Reads.{tested_by, tested_by_all};
ghost use Rattle.pddl_state.specs.Atoms.{AtomValue, atom_eq};

use crate::filled::insert_filled;
use pddl_compiled::{Change, Condition, Frame};
use pddl_state::{Atom, AtomStore};
use std::alloc::{AllocError, Allocator};

/// Puts the atoms that a condition reads into a set.
#[cycle(reads)]
pub fn add_reads<'f, A: Allocator, B: Allocator, S: AtomStore<B>>(
    condition: &'f Condition<A>,
    frame: &'f Frame<'f>,
    atom: &mut Atom<B>,
    store: &mut S,
    into: &mut S::Set,
) -> Result<(), AllocError>
    requires { S.owns store.old into.old }
    ensures own { S.owns store.new into.new }
    ensures others_own { (t : S.Set) → S.owns store.old t → S.owns store.new t }
    ensures others { (t : S.Set) → S.owns store.old t → S.content store.new t ≡ S.content store.old t }
    ensures ok { OnOk result ((x : AtomValue) → S.content store.new into.new x ≡ (some_tested (condition_view condition.now) (atom_eq x) (frame_view frame.now) || S.content store.old into.old x)) }
{
    match condition {
        Condition::Known(_) => Ok(()),
        Condition::Equal(_, _) => Ok(()),
        Condition::Atom(predicate, places) => {
            insert_filled(atom, *predicate, places, &*frame, store, into)
        }
        Condition::Not(inner) => add_reads(inner, &*frame, atom, store, into),
        Condition::And(parts) => add_all_reads(parts, &*frame, atom, store, into),
        Condition::Or(parts) => add_all_reads(parts, &*frame, atom, store, into),
        Condition::Imply(left, right) => {
            add_reads(left, &*frame, atom, store, into)?;
            add_reads(right, &*frame, atom, store, into)
        }
        Condition::Exists(range, inner) => {
            add_reads_of_each(range, inner, &*frame, atom, store, into)
        }
        Condition::Forall(range, inner) => {
            add_reads_of_each(range, inner, &*frame, atom, store, into)
        }
    }
}

/// Puts those that conditions read into it.
#[cycle(reads)]
fn add_all_reads<'f, A: Allocator, B: Allocator, S: AtomStore<B>>(
    conditions: &'f [Condition<A>],
    frame: &'f Frame<'f>,
    atom: &mut Atom<B>,
    store: &mut S,
    into: &mut S::Set,
) -> Result<(), AllocError>
    requires { S.owns store.old into.old }
    ensures own { S.owns store.new into.new }
    ensures others_own { (t : S.Set) → S.owns store.old t → S.owns store.new t }
    ensures others { (t : S.Set) → S.owns store.old t → S.content store.new t ≡ S.content store.old t }
    ensures ok { OnOk result ((x : AtomValue) → S.content store.new into.new x ≡ (some_tested_in (conditions_view conditions.now) (atom_eq x) (frame_view frame.now) || S.content store.old into.old x)) }
{
    for condition in conditions {
        add_reads(condition, &*frame, atom, store, into)?;
    }
    Ok(())
}

/// Puts those that a condition reads into it for each object of a range.
#[cycle(reads)]
fn add_reads_of_each<'f, A: Allocator, B: Allocator, S: AtomStore<B>>(
    range: &'f [usize],
    condition: &'f Condition<A>,
    frame: &'f Frame<'f>,
    atom: &mut Atom<B>,
    store: &mut S,
    into: &mut S::Set,
) -> Result<(), AllocError>
    requires { S.owns store.old into.old }
    ensures own { S.owns store.new into.new }
    ensures others_own { (t : S.Set) → S.owns store.old t → S.owns store.new t }
    ensures others { (t : S.Set) → S.owns store.old t → S.content store.new t ≡ S.content store.old t }
    ensures ok { OnOk result ((x : AtomValue) → S.content store.new into.new x ≡ (list_any (λ o. some_tested (condition_view condition.now) (atom_eq x) (o ∷ frame_view frame.now)) range.now || S.content store.old into.old x)) }
{
    for object in range {
        let bound = Frame::Bound(*object, &*frame);
        add_reads(condition, &bound, atom, store, into)?;
    }
    Ok(())
}

/// Puts the atoms that a change's conditions read into a set.
#[cycle(change_reads)]
pub fn add_change_reads<'f, A: Allocator, B: Allocator, S: AtomStore<B>>(
    change: &'f Change<A>,
    frame: &'f Frame<'f>,
    atom: &mut Atom<B>,
    store: &mut S,
    into: &mut S::Set,
) -> Result<(), AllocError>
    requires { S.owns store.old into.old }
    ensures own { S.owns store.new into.new }
    ensures others_own { (t : S.Set) → S.owns store.old t → S.owns store.new t }
    ensures others { (t : S.Set) → S.owns store.old t → S.content store.new t ≡ S.content store.old t }
    ensures ok { OnOk result ((x : AtomValue) → S.content store.new into.new x ≡ (tested_by (change_view change.now) (atom_eq x) (frame_view frame.now) || S.content store.old into.old x)) }
{
    match change {
        Change::And(parts) => add_changes_reads(parts, &*frame, atom, store, into),
        Change::Forall(range, inner) => {
            add_change_reads_of_each(range, inner, &*frame, atom, store, into)
        }
        Change::When(condition, inner) => {
            add_reads(condition, &*frame, atom, store, into)?;
            add_change_reads(inner, &*frame, atom, store, into)
        }
        Change::Add(_, _) => Ok(()),
        Change::Del(_, _) => Ok(()),
        Change::Increase(_, _) => Ok(()),
        Change::IncreaseBy(_) => Ok(()),
    }
}

/// Puts those that the conditions of changes read into it.
#[cycle(change_reads)]
fn add_changes_reads<'f, A: Allocator, B: Allocator, S: AtomStore<B>>(
    changes: &'f [Change<A>],
    frame: &'f Frame<'f>,
    atom: &mut Atom<B>,
    store: &mut S,
    into: &mut S::Set,
) -> Result<(), AllocError>
    requires { S.owns store.old into.old }
    ensures own { S.owns store.new into.new }
    ensures others_own { (t : S.Set) → S.owns store.old t → S.owns store.new t }
    ensures others { (t : S.Set) → S.owns store.old t → S.content store.new t ≡ S.content store.old t }
    ensures ok { OnOk result ((x : AtomValue) → S.content store.new into.new x ≡ (tested_by_all (changes_view changes.now) (atom_eq x) (frame_view frame.now) || S.content store.old into.old x)) }
{
    for change in changes {
        add_change_reads(change, &*frame, atom, store, into)?;
    }
    Ok(())
}

/// Puts those that a change's conditions read into it for each object of a range.
#[cycle(change_reads)]
fn add_change_reads_of_each<'f, A: Allocator, B: Allocator, S: AtomStore<B>>(
    range: &'f [usize],
    change: &'f Change<A>,
    frame: &'f Frame<'f>,
    atom: &mut Atom<B>,
    store: &mut S,
    into: &mut S::Set,
) -> Result<(), AllocError>
    requires { S.owns store.old into.old }
    ensures own { S.owns store.new into.new }
    ensures others_own { (t : S.Set) → S.owns store.old t → S.owns store.new t }
    ensures others { (t : S.Set) → S.owns store.old t → S.content store.new t ≡ S.content store.old t }
    ensures ok { OnOk result ((x : AtomValue) → S.content store.new into.new x ≡ (list_any (λ o. tested_by (change_view change.now) (atom_eq x) (o ∷ frame_view frame.now)) range.now || S.content store.old into.old x)) }
{
    for object in range {
        let bound = Frame::Bound(*object, &*frame);
        add_change_reads(change, &bound, atom, store, into)?;
    }
    Ok(())
}
