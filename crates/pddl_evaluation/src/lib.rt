//! What conditions and changes of a linked task mean, computed over any store of sets of atoms.
//!
//! Each call goes once through a condition or a change, by numbers alone: no name is compared, and an atom that is tested or put into
//! a set is made in one that the caller lends, whose memory is used again. All fail for want of memory alone.
#![tactic(auto)]

mod costs;
mod filled;
mod fires;
mod reads;
mod truth;

pub use costs::{Prices, spent};
pub use fires::add_fired;
pub use reads::{add_change_reads, add_reads};
pub use truth::is_true;
