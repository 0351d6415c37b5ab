//! Links plans.
//!
//! `link_plan` looks up each step of a plan in a linked task, in file order: its action, how many objects it has, which they are,
//! whether they fit, how large it is and whether its costs have values. What links is a `Steps`, which names actions and objects by numbers.
#![tactic(auto)]

mod checks;
mod fault;
mod linked_plan;

pub use fault::StepFault;
pub use linked_plan::link_plan;
