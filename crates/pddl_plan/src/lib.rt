//! Plans as values: the steps of a plan with their moments, and how they are put together name by name.
#![tactic(auto)]

mod name_list;
mod plan;
mod plan_builder;
mod step;

pub use plan::Plan;
pub use plan_builder::PlanBuilder;
pub use step::Step;
