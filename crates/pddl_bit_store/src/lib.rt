//! The store of sets of ground atoms that numbers the atoms and keeps each set as a row of bits.
#![tactic(auto)]

mod bits;

pub use bits::{BitSet, BitStore};
