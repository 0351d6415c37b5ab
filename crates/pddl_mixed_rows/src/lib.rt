//! Rows of bits, by the numbers of the bits that are set where they are few, and else by words.
#![tactic(auto)]

mod mixed;
mod sparse;

pub use mixed::{
    Row, clear_places, copied, has_place, next_shared_place, put_place, put_places, share_no_place,
};
