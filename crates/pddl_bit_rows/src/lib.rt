//! Rows of bits, by words: [`rows_disjoint`], [`rows_unite`] and [`rows_subtract`] work on eight words at a time.
#![tactic(auto)]

mod kernels;
mod lanes;
mod row;

pub use kernels::{rows_disjoint, rows_subtract, rows_unite};
pub use row::{
    clear_bits, is_bit_set, lengthen, next_shared_bit, put_bit, set_bit, set_bits, share_no_bit,
};
