//! The readers of what a domain declares from items: types, predicates, functions and actions.
//!
//! A reader answers a value exactly where the items spell one, and then that one.
#![tactic(auto)]

mod action_reader;
mod declaration_reader;
mod laws;

pub use action_reader::action_of;
pub use declaration_reader::{declared_functions_of, declared_predicates_of, declared_types_of};
pub use laws::{actions_as_spelled, declarations_as_spelled};
