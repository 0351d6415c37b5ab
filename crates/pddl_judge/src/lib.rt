//! The happenings of a plan, and the verdict on it, over any steps and any store of atoms.
#![tactic(auto)]

mod clash;
mod course;
mod happening;
mod plan_happenings;
mod refusal;
mod stage;
mod touch;
mod verdict;

pub use course::Course;
pub use happening::Happening;
pub use plan_happenings::{plain_happenings, timed_happenings};
pub use refusal::Refusal;
pub use stage::apply_alone;
pub use verdict::{Accepted, Verdict, judge};
