//! Making values of parts, each of which may be missing or refused by memory.
//!
//! These functions stand at types of which nothing is known. What a check does for a function grows with its owned values of known
//! types, times the ways out of it while they live. So a reader of structs and enums hands its parts, as they were
//! read, to a function of this crate, where an owned value is opaque, and keeps one way out itself.
#![tactic(auto)]

mod found;
mod results;
mod slots;

pub use found::{append_found, fill_found, set_found, set_list};
pub use results::{
    all_made, both, both_boxed, both_in_boxes, both_made, boxed, if_right, list_if_right,
};
pub use slots::{fill, push_found, pushed};
