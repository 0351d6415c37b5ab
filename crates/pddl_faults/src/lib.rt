//! The faults of linking, as they are answered.
//!
//! What stands here serves all crates of linking: a pass looks for one fault, a search for several at each place, and both answer one with a word of
//! a place where it stands. Of what is found in two parts `lower` answers the lower one.
#![tactic(auto)]

mod fault;
mod lowest;

pub use fault::LinkFault;
pub use lowest::{lower, once};
