//! What changes add and delete.

ghost use Rattle.std.specs.Prelude.{◌≡◌, ◌||◌, ◌∷◌, OnOk};
ghost use Rattle.std.specs.List.{list_any};
ghost use Rattle.pddl_compiled.specs.Views.{change_view, changes_view, frame_view};
ghost use Rattle.pddl_evaluation.specs.Fires.{added, all_added, deleted, all_deleted};
ghost use Rattle.pddl_state.specs.Atoms.{AtomValue, atom_eq};

use crate::filled::insert_filled;
use crate::truth::is_true;
use pddl_compiled::{Change, Frame};
use pddl_state::{Atom, AtomStore};
use std::alloc::{AllocError, Allocator};

/// Puts the atoms that a change adds and deletes in a state into two sets.
#[cycle(fires)]
pub fn add_fired<'f, A: Allocator, B: Allocator, S: AtomStore<B>>(
    change: &'f Change<A>,
    frame: &'f Frame<'f>,
    atom: &mut Atom<B>,
    store: &mut S,
    state: &S::Set,
    adds: &mut S::Set,
    dels: &mut S::Set,
) -> Result<(), AllocError>
    requires state_own { S.owns store.old state.now }
    requires adds_own { S.owns store.old adds.old }
    requires dels_own { S.owns store.old dels.old }
    ensures adds_own { S.owns store.new adds.new }
    ensures dels_own { S.owns store.new dels.new }
    ensures others_own { (t : S.Set) → S.owns store.old t → S.owns store.new t }
    ensures others { (t : S.Set) → S.owns store.old t → S.content store.new t ≡ S.content store.old t }
    ensures added { OnOk result ((x : AtomValue) → S.content store.new adds.new x ≡ (added (S.content store.old state.now) (change_view change.now) (atom_eq x) (frame_view frame.now) || S.content store.old adds.old x)) }
    ensures deleted { OnOk result ((x : AtomValue) → S.content store.new dels.new x ≡ (deleted (S.content store.old state.now) (change_view change.now) (atom_eq x) (frame_view frame.now) || S.content store.old dels.old x)) }
{
    match change {
        Change::And(parts) => add_all_fired(parts, &*frame, atom, store, state, adds, dels),
        Change::Forall(range, inner) => {
            add_fired_of_each(range, inner, &*frame, atom, store, state, adds, dels)
        }
        Change::When(condition, inner) => {
            if is_true(condition, &*frame, atom, &*store, state)? {
                add_fired(inner, &*frame, atom, store, state, adds, dels)
            } else {
                Ok(())
            }
        }
        Change::Add(predicate, places) => {
            insert_filled(atom, *predicate, places, &*frame, store, adds)
        }
        Change::Del(predicate, places) => {
            insert_filled(atom, *predicate, places, &*frame, store, dels)
        }
        Change::Increase(_, _) => Ok(()),
        Change::IncreaseBy(_) => Ok(()),
    }
}

/// Puts those of changes into them.
#[cycle(fires)]
fn add_all_fired<'f, A: Allocator, B: Allocator, S: AtomStore<B>>(
    changes: &'f [Change<A>],
    frame: &'f Frame<'f>,
    atom: &mut Atom<B>,
    store: &mut S,
    state: &S::Set,
    adds: &mut S::Set,
    dels: &mut S::Set,
) -> Result<(), AllocError>
    requires state_own { S.owns store.old state.now }
    requires adds_own { S.owns store.old adds.old }
    requires dels_own { S.owns store.old dels.old }
    ensures adds_own { S.owns store.new adds.new }
    ensures dels_own { S.owns store.new dels.new }
    ensures others_own { (t : S.Set) → S.owns store.old t → S.owns store.new t }
    ensures others { (t : S.Set) → S.owns store.old t → S.content store.new t ≡ S.content store.old t }
    ensures added { OnOk result ((x : AtomValue) → S.content store.new adds.new x ≡ (all_added (S.content store.old state.now) (changes_view changes.now) (atom_eq x) (frame_view frame.now) || S.content store.old adds.old x)) }
    ensures deleted { OnOk result ((x : AtomValue) → S.content store.new dels.new x ≡ (all_deleted (S.content store.old state.now) (changes_view changes.now) (atom_eq x) (frame_view frame.now) || S.content store.old dels.old x)) }
{
    for change in changes {
        add_fired(change, &*frame, atom, store, state, adds, dels)?;
    }
    Ok(())
}

/// Puts those of a change into them for each object of a range.
#[cycle(fires)]
fn add_fired_of_each<'f, A: Allocator, B: Allocator, S: AtomStore<B>>(
    range: &'f [usize],
    change: &'f Change<A>,
    frame: &'f Frame<'f>,
    atom: &mut Atom<B>,
    store: &mut S,
    state: &S::Set,
    adds: &mut S::Set,
    dels: &mut S::Set,
) -> Result<(), AllocError>
    requires state_own { S.owns store.old state.now }
    requires adds_own { S.owns store.old adds.old }
    requires dels_own { S.owns store.old dels.old }
    ensures adds_own { S.owns store.new adds.new }
    ensures dels_own { S.owns store.new dels.new }
    ensures others_own { (t : S.Set) → S.owns store.old t → S.owns store.new t }
    ensures others { (t : S.Set) → S.owns store.old t → S.content store.new t ≡ S.content store.old t }
    ensures added { OnOk result ((x : AtomValue) → S.content store.new adds.new x ≡ (list_any (λ o. added (S.content store.old state.now) (change_view change.now) (atom_eq x) (o ∷ frame_view frame.now)) range.now || S.content store.old adds.old x)) }
    ensures deleted { OnOk result ((x : AtomValue) → S.content store.new dels.new x ≡ (list_any (λ o. deleted (S.content store.old state.now) (change_view change.now) (atom_eq x) (o ∷ frame_view frame.now)) range.now || S.content store.old dels.old x)) }
{
    for object in range {
        let bound = Frame::Bound(*object, &*frame);
        add_fired(change, &bound, atom, store, state, adds, dels)?;
    }
    Ok(())
}
