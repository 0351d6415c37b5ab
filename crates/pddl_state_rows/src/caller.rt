//! A caller of any store, which knows nothing but the laws of [`AtomStore`].
//!
//! No proof names a store here: [`two_sets`] and [`merge`] are proved from the trait alone, and so hold for each store that keeps its laws.

ghost use Rattle.std.specs.Prelude.{◌≡◌, true, IfOk, IfSome, OnOk, OnErr, MatchOption};
ghost use Rattle.pddl_state.specs.AtomSets.{no_atoms, with_atom, union, intersection, difference, AreDisjoint, IsLowerBound, IsRising, is_listed};

use pddl_state::{Atom, AtomStore};
use std::alloc::{AllocError, Allocator};

/// Two sets of a store that grows: one with the first atom, one with both.
///
/// `own`: both are sets of the store. `first`, `both`: what they have, and nothing else. `others_own`, `others`: each set
/// that the store had stays its own, with its content, also where memory is refused.
pub fn two_sets<A: Allocator, S: AtomStore<A>>(
    store: &mut S,
    first: &Atom<A>,
    second: &Atom<A>,
) -> Result<(S::Set, S::Set), AllocError>
    ensures own { IfOk result (λ sets. S.owns store.new sets.0 × S.owns store.new sets.1) }
    ensures first { IfOk result (λ sets. S.content store.new sets.0 ≡ with_atom no_atoms first.now) }
    ensures both { IfOk result (λ sets. S.content store.new sets.1 ≡ with_atom (with_atom no_atoms first.now) second.now) }
    ensures others_own { (t : S.Set) → S.owns store.old t → S.owns store.new t }
    ensures others { (t : S.Set) → S.owns store.old t → S.content store.new t ≡ S.content store.old t }
{
    let mut one = store.empty();
    store.insert(&mut one, first)?;
    let mut two = store.copy(&one)?;
    store.insert(&mut two, second)?;
    Ok((one, two))
}

/// What a set had in common with another, and what it got from it.
#[derive(Drop)]
pub struct Merged<A: Allocator> {
    /// The least atom that both sets had.
    pub shared: Option<Atom<A>>,
    /// The atoms that the set lacked, rising.
    pub added: Vec<Atom<A>, A>,
    /// The atoms that it has now, rising.
    pub all: Vec<Atom<A>, A>,
}

/// Adds the atoms of another set to a set, and lists what that changes.
///
/// `own`, `content`: the set is still the store's own, with the atoms of both. `shared`, `least`: an atom that both had, the
/// least one, and none where they had none. `added_rising`, `added`, `all_rising`, `all`: the lists, each atom once.
/// `err`: memory was refused, and the set's content is as it was.
pub fn merge<A: Allocator, S: AtomStore<A>>(
    store: &S,
    set: &mut S::Set,
    more: &S::Set,
) -> Result<Merged<A>, AllocError>
    requires set_own { S.owns store.now set.old }
    requires more_own { S.owns store.now more.now }
    ensures own { S.owns store.now set.new }
    ensures content { OnOk result (S.content store.now set.new ≡ union (S.content store.now set.old) (S.content store.now more.now)) }
    ensures err { OnErr result (S.content store.now set.new ≡ S.content store.now set.old) }
    ensures shared { IfOk result (λ m. MatchOption m.shared
        (AreDisjoint (S.content store.now set.old) (S.content store.now more.now))
        (λ x. intersection (S.content store.now set.old) (S.content store.now more.now) x ≡ true)) }
    ensures least { IfOk result (λ m. IfSome m.shared
        (λ x. IsLowerBound x (intersection (S.content store.now set.old) (S.content store.now more.now)))) }
    ensures added_rising { IfOk result (λ m. IsRising m.added.items) }
    ensures added { IfOk result (λ m. is_listed m.added.items
        ≡ difference (S.content store.now more.now) (S.content store.now set.old)) }
    ensures all_rising { IfOk result (λ m. IsRising m.all.items) }
    ensures all { IfOk result (λ m. is_listed m.all.items
        ≡ union (S.content store.now set.old) (S.content store.now more.now)) }
{
    let shared = store.common(set, more)?;
    let added = lacking(store, set, more)?;
    let all = unite_listed(store, set, more)?;
    Ok(Merged { shared, added, all })
}

/// The atoms of another set that a set lacks.
fn lacking<A: Allocator, S: AtomStore<A>>(
    store: &S,
    set: &S::Set,
    more: &S::Set,
) -> Result<Vec<Atom<A>, A>, AllocError>
    requires set_own { S.owns store.now set.now }
    requires more_own { S.owns store.now more.now }
    ensures rising { IfOk result (λ atoms. IsRising atoms.items) }
    ensures content { IfOk result (λ atoms. is_listed atoms.items
        ≡ difference (S.content store.now more.now) (S.content store.now set.now)) }
{
    let mut rest = store.copy(more)?;
    store.subtract(&mut rest, set);
    let atoms = store.list(&rest);
    drop(rest);
    atoms
}

/// Adds the atoms of another set to a set, and lists those that it has then. Where memory is refused, it has what it had.
fn unite_listed<A: Allocator, S: AtomStore<A>>(
    store: &S,
    set: &mut S::Set,
    more: &S::Set,
) -> Result<Vec<Atom<A>, A>, AllocError>
    requires set_own { S.owns store.now set.old }
    requires more_own { S.owns store.now more.now }
    ensures own { S.owns store.now set.new }
    ensures ok { OnOk result (S.content store.now set.new ≡ union (S.content store.now set.old) (S.content store.now more.now)) }
    ensures err { OnErr result (S.content store.now set.new ≡ S.content store.now set.old) }
    ensures rising { IfOk result (λ atoms. IsRising atoms.items) }
    ensures content { IfOk result (λ atoms. is_listed atoms.items
        ≡ union (S.content store.now set.old) (S.content store.now more.now)) }
{
    let mut whole = store.copy(set)?;
    store.unite(&mut whole, more)?;
    let atoms = store.list(&whole)?;
    *set = whole;
    Ok(atoms)
}
