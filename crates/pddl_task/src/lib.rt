//! What it is for a domain and a problem to be linked, and the task that they make.
//!
//! Types and subtypes, which names may stand where, the faults of linking, the task's value, ground sizes, and the atoms that a
//! step can speak of. There are only definitions and laws; no code links yet.
#![tactic(auto)]

mod fault_laws;
mod task_laws;
mod type_laws;

pub use fault_laws::{
    domain_faults_are_faults, first_is_lowest, linked_domain_is_good, linked_or_lowest,
    none_is_lowest, one_lowest, words_of_later_items,
};
pub use task_laws::{
    actions_stand_once, costs_are_known, costs_are_single, costs_are_whole, fitting_are_objects,
    fitting_numbers_are, functions_stand_once, goal_is_known, goal_is_within, initial_is_known,
    listings_are_objects, no_fact_fails, objects_have_one_type, objects_stand_once,
    predicates_stand_once, steps_are_known, total_starts_at_zero, types_are_known,
};
pub use type_laws::{
    cycles_are_faults, fits_decides, fitting_decides, is_cyclic_decides, is_subtype_decides,
    is_under_decides, parents_are_above, types_stand_once, under_is_reflexive, under_is_transitive,
};
