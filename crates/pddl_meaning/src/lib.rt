//! What formulas, effects and steps of a linked task mean.
//!
//! Truth, and what steps read, add, delete and cost in a state, in terms of the names that a task has. There are only definitions
//! and laws.
#![tactic(auto)]

mod laws;

pub use laws::{effects_are_framed, fired_are_spoken_of, formulas_are_framed, steps_are_framed};
