//! What calls below the commands answer of plans, in lines: for rows.
//!
//! A listing reads, links and executes the plan in the third file. What depends on a store of atoms is listed over
//! both stores, and printed once where they agree. Numbers of steps and places are from 0; a fourth file asks of them, line by line.
#![tactic(auto)]

mod atoms;
mod courses;
mod ends;
mod listed;
mod listing;
mod made;
mod moments;
mod plan;
mod replays;
mod steps;
mod stores;

pub use listed::{Asked, Listed, Made, OfPlan, Stored};
pub use listing::list;
