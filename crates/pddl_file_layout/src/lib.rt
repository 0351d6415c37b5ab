//! The canonical text of domains and problems.
//!
//! One value has one canonical text: lower case, one space between two words or lists, a line for each section and four for
//! each action. Where it keeps the limits of length and levels it reads back as the value.
#![tactic(auto)]

mod domain;
mod effect;
mod formula;
mod laws;
mod printing;
mod problem;
mod section;

pub use domain::{domain_text, write_domain};
pub use laws::{
    domain_levels_as_read, domain_reads_back, effect_tree_spells, formula_tree_spells,
    one_canonical_domain, one_canonical_problem, problem_levels_as_read, problem_reads_back,
};
pub use problem::{problem_text, write_problem};
