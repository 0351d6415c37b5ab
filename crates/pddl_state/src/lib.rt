//! Sets of ground atoms, kept by a store.
//!
//! An [`Atom`] is a predicate and its arguments by numbers. A store makes sets of atoms and does all that is done
//! with them; the trait [`AtomStore`] has its laws, so that code above is proved once, for every store. Here is the plain one,
//! [`SortedStore`], which keeps each set in order; that of rows of bits is in `pddl_bit_store`.
#![tactic(auto)]

mod atom;
mod sorted;
mod store;

pub use atom::Atom;
pub use sorted::{SortedSet, SortedStore};
pub use store::AtomStore;
