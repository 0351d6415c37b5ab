//! The reader of problems from texts.
//!
//! It answers a problem exactly where the text spells one, and then that one; else the first fault.
#![tactic(auto)]

mod init_texts;
mod object_texts;
mod one_pass;
mod problem_reader;
mod section;
mod section_reader;

pub use problem_reader::{
    no_fault_in_problem, one_problem, one_problem_fault, problem_fault_in_text, read_problem,
};
