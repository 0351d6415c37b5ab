//! What tests need: an allocator that refuses chosen growths, and a reader and a writer in memory that work in small pieces
//! and fail at a chosen call.
#![tactic(auto)]

mod growths;
mod refusing;
mod sink;
mod source;

pub use refusing::Refusing;
pub use sink::{Failure, FakeSink};
pub use source::FakeSource;
