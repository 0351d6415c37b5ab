//! The readers of effects from items.
//!
//! A reader answers a value exactly where the items spell one, and then that one.
#![tactic(auto)]

mod amount_reader;
mod effect_reader;
mod increase;

pub use amount_reader::{amount_of, function_term_of, number_of};
pub use effect_reader::{effect_of, one_effect, whole_effect_of};
pub use increase::{is_increase, is_total_cost};
