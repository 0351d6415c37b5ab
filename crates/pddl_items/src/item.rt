//! Items: words, and lists of items.

use pddl_token::{Span, Token};
use std::alloc::Allocator;

/// A word that is no parenthesis, or a list of items with its span: from the first byte of its `(` to behind its `)`.
#[derive(Drop)]
pub enum Item<'t, A: Allocator> {
    Word(Token<'t>),
    List(Vec<Item<'t, A>, A>, Span),
}
