//! The readers of what a problem says at its start, from items: the items of `:init` and the metric.
//!
//! A reader answers a value exactly where the items spell one, and then that one.
#![tactic(auto)]

mod init_reader;
mod laws;

pub use init_reader::{inits_of, metric_of};
pub use laws::{inits_as_spelled, metrics_as_spelled};
