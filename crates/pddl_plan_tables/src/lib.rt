//! What the steps of a plan are looked up in: the actions of a task by name with their ground sizes, its functions, its costs, and what an action's effect
//! can cost.
#![tactic(auto)]

mod action_table;
mod changes;
mod costs;
mod tables;

pub use action_table::{Actions, SizedAction};
pub use changes::{Changes, make_change, no_changes};
pub use costs::some_costless;
pub use tables::{PlanTables, plan_tables};
