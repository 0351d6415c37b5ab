//! Words of a text and their places.

use std::alloc::Allocator;

/// A range of places in a text, in bytes from its beginning: `start` belongs to it, `end` does not.
#[derive(Clone, Copy, Debug, PartialEq, Eq)]
pub struct Span {
    pub start: u32,
    pub end: u32,
}

/// What a word is by its spelling.
///
/// Names, variables and numbers are those of Kovacs' definition of PDDL 3.1, and so are the signs of the other kinds. That
/// a keyword is one word with its `:`, and what may stand directly after a word, is own.
#[derive(Clone, Copy, Debug, PartialEq, Eq)]
pub enum TokenKind {
    /// `(`.
    Open,
    /// `)`.
    Close,
    /// An ASCII letter, then all letters, digits, `-` and `_` that follow.
    Name,
    /// `?`, a letter, then all letters, digits, `-` and `_` that follow.
    Variable,
    /// `:`, a letter, then all letters, digits, `-` and `_` that follow.
    Keyword,
    /// Digits, or digits, `.` and digits. No letter, digit, `-` or `_` follows.
    Number,
    /// `-` where a word begins.
    Dash,
    /// `=` where a word begins.
    Equal,
    /// `:` that no letter follows.
    Colon,
    /// `[` or `]`.
    Bracket,
    /// `<`, `>`, `<=` or `>=`, the longer one where it fits.
    Compare,
    /// `+`, `*` or `/`.
    Arithmetic,
}

/// A word of a text: what it is, its bytes, and where they stand. The bytes are as they stand in the text, in either letter
/// case.
#[derive(Clone, Copy)]
pub struct Token<'a> {
    pub kind: TokenKind,
    pub text: &'a [u8],
    pub span: Span,
}

/// A word with a text of its own, in all else a [`Token`].
#[derive(Drop)]
pub struct Word<A: Allocator> {
    pub kind: TokenKind,
    pub text: Vec<u8, A>,
    pub span: Span,
}
