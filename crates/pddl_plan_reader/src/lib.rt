//! The reader of plans.
//!
//! It answers a plan exactly where the text spells one, and then that one; else the first fault. [`read_plan`] reads a
//! plan's text as one piece, and a [`PlanReader`] as it comes.
#![tactic(auto)]

mod plan_reader;

pub use plan_reader::{
    PlanReader, no_fault_in_plan, one_plan, one_plan_fault, plan_fault_in_text, read_plan,
};
