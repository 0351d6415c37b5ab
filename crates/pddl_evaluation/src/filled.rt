//! Atoms of predicates and the objects at places, in sets. Each is made in an atom that the caller lends.

ghost use Rattle.std.specs.Prelude.{◌≡◌, IfOk, OnOk, map};
ghost use Rattle.pddl_compiled.specs.CompiledMeaning.{atom_in};
ghost use Rattle.pddl_compiled.specs.Views.{frame_view, place_view};
ghost use Rattle.pddl_state.specs.AtomSets.{with_atom};

use pddl_compiled::{Frame, Place, fill};
use pddl_state::{Atom, AtomStore};
use std::alloc::{AllocError, Allocator};

/// Whether a set has the atom.
pub fn has_filled<'f, B: Allocator, S: AtomStore<B>>(
    atom: &mut Atom<B>,
    predicate: usize,
    places: &[Place],
    frame: &'f Frame<'f>,
    store: &S,
    set: &S::Set,
) -> Result<bool, AllocError>
    requires { S.owns store.now set.now }
    ensures { IfOk result (λ yes. yes ≡ S.content store.now set.now (atom_in (frame_view frame.now) predicate (map place_view places.now))) }
{
    fill(atom, predicate, places, &*frame)?;
    Ok(store.has(set, atom))
}

/// Puts the atom into a set.
pub fn insert_filled<'f, B: Allocator, S: AtomStore<B>>(
    atom: &mut Atom<B>,
    predicate: usize,
    places: &[Place],
    frame: &'f Frame<'f>,
    store: &mut S,
    into: &mut S::Set,
) -> Result<(), AllocError>
    requires { S.owns store.old into.old }
    ensures own { S.owns store.new into.new }
    ensures ok { OnOk result (S.content store.new into.new ≡ with_atom (S.content store.old into.old) (atom_in (frame_view frame.now) predicate (map place_view places.now))) }
    ensures others_own { (t : S.Set) → S.owns store.old t → S.owns store.new t }
    ensures others { (t : S.Set) → S.owns store.old t → S.content store.new t ≡ S.content store.old t }
{
    fill(atom, predicate, places, &*frame)?;
    store.insert(into, atom)
}
