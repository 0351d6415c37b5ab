//! The verdict on a linked plan, and runs of its steps one after another.
//!
//! `validate` executes a plan's happenings one after another over any store of sets of atoms, and answers that the plan is accepted, with
//! its end and its cost, or why it is refused; `replay` executes the steps of any linked plan in the order of a list. Their contracts speak of the
//! task's named ground atoms.
#![tactic(auto)]

mod fault;
mod moments;
mod replaying;
mod verdict;

pub use fault::ReplayFault;
pub use moments::happenings;
pub use pddl_judge::{Accepted, Happening, Refusal, Verdict};
pub use pddl_serial::End;
pub use replaying::replay;
pub use verdict::validate;
