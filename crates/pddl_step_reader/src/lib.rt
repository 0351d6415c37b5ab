//! The steps that words and items are, and what the trees of items are that the readers of files go by.
//!
//! It serves the readers: [`read_on`] adds to a plan the steps that words end, and [`add_steps`] those that items are.
#![tactic(auto)]

mod fault;
mod plan_items;
mod plan_words;

pub use fault::ReadFault;
pub use plan_items::add_steps;
pub use plan_words::{Place, read_on};
