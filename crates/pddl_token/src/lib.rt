//! The words of PDDL texts, the trees that they form, and the values of one word: numbers and names.
//!
//! Which words a text spells, and which trees, is said by the definitions in `specs/`: `Bytes` and `Words` (which bytes are a word of a kind), `Spelling` (which
//! words, in turn, spell a text), `Trees`, `TreeWords` (what a word of a tree is, letter case aside), `Number`, `NumberText` and `Names`. [`value_of`] gives the value of a
//! number's text as a [`Fixed`], [`Name::new`] the name that a text spells, and [`Name::at_front`] the longest that stands at its front. The crates above read by these; what is read, and what is linked, needs no more of texts.
#![tactic(auto)]

mod fixed;
mod lent_name;
mod name;
mod number;
mod token;

pub use fixed::{Fixed, LARGEST, number_reads_back};
pub use lent_name::LentName;
pub use name::{Name, begins_name, is_name, name_byte, word_len};
pub use number::{digits_len, value_of};
pub use token::{Span, Token, TokenKind, Word};
