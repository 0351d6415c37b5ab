//! A linked task's names, ranges and prices by numbers.
//!
//! `TaskLookups` are what formulas and effects of a task are compiled by, and `task_prices` answers what functions of objects cost. In
//! linked files both speak of what formulas and effects mean by names. Predicates and functions are numbered in the domain's order,
//! objects in the task's, constants first.
#![tactic(auto)]

mod lookups;
mod price_laws;
mod prices;

pub use lookups::TaskLookups;
pub use price_laws::{prices_are_costs, tables_are_over};
pub use prices::{TaskPrices, task_prices};
