//! Compiles linked plans.
//!
//! Each action that a step uses, and the goal, is compiled once. What is made is a `CompiledPlan`, a course of steps for the judge, which starts from
//! `initial_state`.
#![tactic(auto)]

mod actions;
mod compiling;
mod starting;

pub use compiling::{compile_plan, let_go_compiled_plan};
pub use pddl_compiled_plan::CompiledPlan;
pub use starting::initial_state;
