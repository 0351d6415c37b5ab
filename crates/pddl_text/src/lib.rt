//! The words, lists and places of PDDL texts.
//!
//! [`lex`] gives the words of a text as tokens, [`lists`] the lists that tokens form, and [`items_of`] both at once. [`next_token`] and [`next_item`] give words and
//! items one by one, and [`next_name`], [`next_number`] and [`next_sign`] words of which it is known what they may be, to who goes over a text that is right; which fault a text has is told by the first alone.
//! [`position`] gives the line and column of a place. A place is a number of bytes from the beginning of the text. Of a text that comes in pieces, of
//! which none is kept, a [`PlanLexer`] gives the words and [`Places`] the positions.
//!
//! Each of these calls answers exactly what the definitions give, and else the fault that stands first: those of `pddl_token` say which words spell a text, those of
//! `pddl_scan` what its faults are and what is read of a text in pieces, and those in `specs/` the rest: `Lists`, `Texts` (both together), `Positions`, and `StandsFor` and `LineStarts` (texts in pieces). The functions with no body are laws
//! on these definitions, for the crates above: a text has at most one reading and at most one fault, and texts that are written in canonical form read back.
#![tactic(auto)]

mod in_turn;
mod lexer;
mod nesting;
mod next_words;
mod pieces;
mod place;
mod places;
mod plan_lexer;
mod texts;

pub use in_turn::{NextItem, next_item};
pub use lexer::{lex, next_token, one_spelling};
pub use nesting::{DEEPEST, list_fault_behind, lists, one_nesting};
pub use next_words::{next_name, next_number, next_sign};
pub use pieces::{levels_as_read, pieces_read_back, tree_reads_back};
pub use place::{Pos, position};
pub use places::Places;
pub use plan_lexer::PlanLexer;
pub use texts::{items_of, no_fault_in_items, one_items, one_reading, one_text_fault};
