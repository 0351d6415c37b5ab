//! Domains, and the values that contracts see in them. Their reader stands in `pddl_domain_reader`.
#![tactic(auto)]

mod declared_types;
mod domain;

pub use declared_types::{DeclaredType, DeclaredTypes};
pub use domain::{Action, DeclaredFunction, DeclaredPredicate, Domain, let_go_domain};
