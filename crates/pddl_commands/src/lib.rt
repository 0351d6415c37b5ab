//! The commands of the program that print a file in its canonical layout, and that check a domain or a problem, over readers and a writer.
//!
//! A command reads its files to their ends, makes the text of its outcome, and then writes that text: so nothing is written
//! where memory was refused or a read failed. Of a plan's file the text is not kept.
#![tactic(auto)]

mod checked;
mod checking;
mod formatted;
mod formatting;

pub use checking::{
    check_domain_file, check_problem_file, one_domain_outcome, one_problem_outcome,
};
pub use formatting::{format, one_outcome};
