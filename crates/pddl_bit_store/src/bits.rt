ghost use Rattle.std.specs.Prelude.{◌≡◌, ℕ, ◌+◌, ◌<◌, ◌&&◌, Bool, true, IfOk, IfSome, OnOk, OnErr, length};
ghost use Rattle.std.specs.List.{IsDistinct};
ghost use Rattle.std.proofs.Props.{props};
ghost use Rattle.indexmap.specs.IndexSet.{insert_key};
ghost use Rattle.pddl_state.specs.Atoms.{atom_eq};
ghost use Rattle.pddl_mixed_rows.specs.MixedRows.{is_set, IsOrderly};
ghost use Rattle.pddl_bit_store.specs.Numbering.{number_of, IsWithin, numbered_content, IsLeastCommon};

use indexmap::IndexSet;
use pddl_hash::Hashed;
use pddl_mixed_rows::{
    Row, clear_places, copied, has_place, next_shared_place, put_place, put_places, share_no_place,
};
use pddl_state::{Atom, AtomStore};
use std::alloc::{AllocError, Allocator};

/// A store of rows of bits. A table numbers each atom when it is first inserted into some set, and a set is a row of bits
/// by these numbers: a rising list of them, or all words of the row where these are no longer.
///
/// `insert` looks the atom up in the table, and takes memory only where the table or the row grows. `disjoint`,
/// `unite`, `subtract` and `copy` look nothing up: they cost a pass over the numbers or the words of the rows, so that a set
/// of few atoms costs nothing of a large table.
#[derive(Drop)]
pub struct BitStore<A: Allocator> {
    atoms: IndexSet<Atom<A>, Hashed, A>,
    alloc: A,
    ghost distinct: { IsDistinct atom_eq atoms.keys } by { Prim.hlevel props },
}

/// A set of a [`BitStore`]: a row of bits. Atoms past its end are not in the set.
#[derive(Drop)]
pub struct BitSet<A: Allocator> {
    row: Row<A>,
}

// The number of the lesser of two atoms, or of the one.
fn lesser<A: Allocator>(table: &[Atom<A>], best: Option<usize>, place: usize) -> Option<usize>
    requires place { place < length table.now }
    requires best { IfSome best (λ m. m < length table.now) }
    ensures { (a b : ℕ → Bool) → IsLeastCommon table.now a b place best → (a place && b place) ≡ true → IsLeastCommon table.now a b (place + 1) result }
{
    match best {
        None => Some(place),
        Some(best) => {
            if table[best] <= table[place] {
                Some(best)
            } else {
                Some(place)
            }
        }
    }
}

impl<A: Allocator + Copy> BitStore<A> {
    /// A store without atoms, which grows by `alloc`. Takes no memory.
    pub fn new(alloc: A) -> BitStore<A> {
        BitStore::hashing(alloc, Hashed::of(b""))
    }

    /// Such a store, whose table of atoms hashes so.
    pub fn hashing(alloc: A, hashed: Hashed) -> BitStore<A> {
        BitStore {
            atoms: IndexSet::with_hasher(alloc, hashed),
            alloc,
        }
    }

    // The atom's number. The table grows by a copy of the atom where it is new.
    fn number(&mut self, atom: &Atom<A>) -> Result<usize, AllocError>
        ensures ok { OnOk result (self.new.atoms.keys ≡ insert_key atom_eq self.old.atoms.keys atom.now) }
        ensures place { IfOk result (λ place. place ≡ number_of self.new.atoms.keys atom.now) }
        ensures within { IfOk result (λ place. place < length self.new.atoms.keys) }
        ensures err { OnErr result (self.new.atoms.keys ≡ self.old.atoms.keys) }
    {
        match self.atoms.get_index_of(atom) {
            Some(place) => Ok(place),
            None => {
                let (place, _) = self.atoms.insert_full(atom.copy(self.alloc)?)?;
                Ok(place)
            }
        }
    }
}

impl<A: Allocator + Copy> AtomStore<A> for BitStore<A> {
    type Set = BitSet<A>;

    ghost owns = { λ store set. IsWithin store.atoms.keys (is_set set.row) × IsOrderly set.row };

    ghost content = { λ store set. numbered_content store.atoms.keys (is_set set.row) };

    fn empty(&self) -> BitSet<A> {
        BitSet {
            row: Row::Few(Vec::new(self.alloc)),
        }
    }

    fn insert(&mut self, set: &mut BitSet<A>, atom: &Atom<A>) -> Result<(), AllocError> {
        let place = self.number(atom)?;
        put_place(&mut set.row, place, self.alloc)?;
        Ok(())
    }

    fn has(&self, set: &BitSet<A>, atom: &Atom<A>) -> bool {
        match self.atoms.get_index_of(atom) {
            Some(place) => has_place(&set.row, place),
            None => false,
        }
    }

    fn disjoint(&self, a: &BitSet<A>, b: &BitSet<A>) -> bool {
        share_no_place(&a.row, &b.row)
    }

    fn common(&self, a: &BitSet<A>, b: &BitSet<A>) -> Result<Option<Atom<A>>, AllocError> {
        let table = self.atoms.as_slice();
        let mut least = None;
        let mut place = next_shared_place(&a.row, &b.row, 0, table.len());
        while place < table.len() {
            least = lesser(table, least, place);
            place = next_shared_place(&a.row, &b.row, place + 1, table.len());
        }
        match least {
            Some(place) => Ok(Some(table[place].copy(self.alloc)?)),
            None => Ok(None),
        }
    }

    // The bits of a row are those that it shares with itself.
    fn list(&self, set: &BitSet<A>) -> Result<Vec<Atom<A>, A>, AllocError> {
        let table = self.atoms.as_slice();
        let mut all = Vec::new(self.alloc);
        let mut place = next_shared_place(&set.row, &set.row, 0, table.len());
        while place < table.len() {
            all.push(table[place].copy(self.alloc)?)?;
            place = next_shared_place(&set.row, &set.row, place + 1, table.len());
        }
        all.sort_unstable();
        Ok(all)
    }

    fn unite(&self, set: &mut BitSet<A>, more: &BitSet<A>) -> Result<(), AllocError> {
        put_places(&mut set.row, &more.row, self.alloc)
    }

    fn subtract(&self, set: &mut BitSet<A>, less: &BitSet<A>) {
        clear_places(&mut set.row, &less.row);
    }

    fn copy(&self, set: &BitSet<A>) -> Result<BitSet<A>, AllocError> {
        Ok(BitSet {
            row: copied(&set.row, self.alloc)?,
        })
    }
}
