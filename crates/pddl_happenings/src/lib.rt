//! The theory of concurrent plans, over any steps: definitions and laws, and no code.
//!
//! A step says whether its precondition is true in a state, which atoms it reads, and what it adds, deletes and costs in a
//! state. A plan gives each number a step, and its happenings are lists of numbers. `specs/` says what the state after a
//! happening is, when two steps interfere, which happenings a plan has, when they are accepted, and what serialisations,
//! serial runs and splits are. Each function here carries a law of these definitions, and does nothing.
#![tactic(auto)]

mod convergence;
mod listing;
mod naming;
mod new_plans;

pub use convergence::{prefix_is_free, serialisations_converge, splits_converge};
pub use listing::{each_once_is_distinct, steps_at_moment};
pub use naming::{accepted_alike, failures_alike};
pub use new_plans::{serial_plan_accepted, split_plan_accepted, split_plan_happenings};
