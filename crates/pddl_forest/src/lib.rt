//! Spans of numbers of places in a forest, by which a test of what is under what is two comparisons; and places on ways that go round, where it is none.
#![tactic(auto)]

mod numbering;
mod spans;

pub use numbering::forest_spans;
pub use spans::{Span, hold_all, keep_tops};
