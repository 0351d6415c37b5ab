//! Problems, and the values that contracts see in them. Their reader stands in `pddl_problem_reader`.
#![tactic(auto)]

mod object_names;
mod problem;

pub use object_names::ObjectNames;
pub use problem::{Direction, Fact, GroundFunction, InitItem, Metric, Problem, let_go_problem};
