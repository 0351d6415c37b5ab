//! Steps of linked plans by numbers, and the atoms that hold at first: what they are, and what holds of them.
//!
//! A `Steps` names actions and objects by numbers; `pddl_plan_link` makes one of a plan that is linked. `initial_atoms` lists the atoms that hold at first.
#![tactic(auto)]

mod initial;
mod step_laws;
mod steps;

pub use initial::{
    atoms_in_range_name_one, initial_atoms, known_atoms_have_numbers, numbers_name_atoms,
};
pub use step_laws::{
    linked_steps_are_known, linked_steps_are_sound, linked_steps_have_names,
    steps_in_any_order_are_linked,
};
pub use steps::{LinkedStep, Steps};
