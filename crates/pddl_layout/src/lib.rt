//! The canonical text of plans and numbers.
//!
//! One plan has one canonical text: lower case, one space between two words of a list, one step a line. Where it keeps
//! the limit of length it reads back as the plan.
#![tactic(auto)]

mod number;
mod plan;
mod printing;

pub use number::write_number;
pub use plan::{one_canonical_plan, plan_reads_back, plan_text, write_plan};
