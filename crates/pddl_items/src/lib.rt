//! Items: words, and lists of items; what they are as trees, and the words of the grammar among them.
//!
//! What tells of an item here looks at it alone, so readers of values wait for no text that is cut into words.
#![tactic(auto)]

mod item;
mod words;

pub use item::Item;
pub use words::{is_dash, is_keyword_item, is_word, is_word_item, name_of};
