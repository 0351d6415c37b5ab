//! What the steps of a linked plan do, by names and by numbers: definitions and laws, without code.
//!
//! When a step is ready, and what it reads, adds and deletes, are those of Fox and Long, PDDL2.1, JAIR 20, 2003; quantifiers, `when`,
//! costs and numbers are own. What is said by numbers is what code computes, and by the laws it says the same as what is said by names.
#![tactic(auto)]

mod laws;

pub use laws::{plans_do_as_named, plans_start_as_named, steps_do_as_named};
