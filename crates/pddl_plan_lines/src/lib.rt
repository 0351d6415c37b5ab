//! The lines that say how a plan ends: valid at what cost, invalid where, or refused for which fault of a step.
#![tactic(auto)]

mod lines;
mod step_faults;

pub use lines::{clash_line, goal_line, unready_line, valid_line};
pub use step_faults::refused_steps;
