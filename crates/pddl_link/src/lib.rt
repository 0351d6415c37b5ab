//! Links domains and problems.
//!
//! `check_domain` and `link` look for faults stage by stage, in the order of their numbers: the domain's name and types that stand twice or above themselves,
//! types and names, and what is used. Of what a stage finds the lowest is answered. What links is a `Task`.
#![tactic(auto)]

mod linked;

pub use linked::{check_domain, link};
pub use pddl_faults::LinkFault;
pub use pddl_linked_task::{Task, let_go_task};
