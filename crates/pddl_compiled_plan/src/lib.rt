//! Linked plans whose steps can be executed, over any store of sets of atoms.
//!
//! `CompiledPlan` is a course of steps for the judge: what a step reads, adds, deletes and costs is found by numbers alone. `pddl_step` makes one.
#![tactic(auto)]

mod action;
mod plan;

pub use action::{CompiledAction, UsedActions};
pub use plan::CompiledPlan;
