//! The reader of domains from texts.
//!
//! It answers a domain exactly where the text spells one, and then that one; else the first fault.
#![tactic(auto)]

mod domain_reader;
mod one_pass;
mod section_reader;

pub use domain_reader::{
    domain_fault_in_text, no_fault_in_domain, one_domain, one_domain_fault, read_domain,
};
