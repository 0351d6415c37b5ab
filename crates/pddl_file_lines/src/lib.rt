//! Reads the files of a command, and makes the lines of those that are refused.
//!
//! For commands over any crates: how a command ends, how its files are read, of a plan without keeping its text, and what is printed
//! for a file that is refused.
#![tactic(auto)]

mod fault_names;
mod line;
mod outcome;
mod plan_file;
mod reading;
mod refused;

pub use fault_names::FaultName;
pub use line::{fault_line, push_number};
pub use outcome::{Formatted, Outcome, RunFault, or_memory, status};
pub use plan_file::{PlanContent, let_go_plan, read_plan_file};
pub use reading::{Content, let_go_text, read_file};
pub use refused::{refused_domain, refused_link, refused_problem};
