//! Serial forms and splits of linked plans.
//!
//! [`serialise`] makes the plain plan of an accepted plan's steps, happening by happening, and [`split`] the timed plan of groups of
//! them. Plans that are made are linked and accepted, with the same end and cost.
#![tactic(auto)]

mod fault;
mod named;
mod serial_plan;
mod split_plan;

pub use fault::SplitFault;
pub use pddl_serial::Order;
pub use serial_plan::serialise;
pub use split_plan::{split, split_in_groups};
