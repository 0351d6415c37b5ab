//! What stands next in a text of PDDL: its words, part by part, whole or as the text comes, and what is wrong with one.
//!
//! It serves the crates of texts: [`next_part`] answers the next word or gap, [`number_at_front`] a number with its value, [`read_piece`] and [`read_last`] the words of a text in pieces, which a
//! [`WordList`] holds. The definitions of what a text's faults are stand here too (`specs/Faults`), for texts and lists alike.
#![tactic(auto)]

mod bytes;
mod fault;
mod next;
mod parts;
mod piecewise;
mod word_list;

pub use fault::{LONGEST, TextFault};
pub use next::{Next, begins_with_blank, next_part, number_at_front};
pub use parts::Progress;
pub use piecewise::{answer, read_last, read_piece};
pub use word_list::WordList;
