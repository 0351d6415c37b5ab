//! Words side by side in one buffer.

ghost use Rattle.std.specs.Prelude.{◌≡◌, ◌≤◌, ◌<◌, ◌+◌, ◌++◌, ◌∷◌, [], Some, ℕ, List, length, map, slice_get, drop, IfOk, OnOk};
ghost use Rattle.pddl_token.specs.Spelling.{PlacedWord, view};
ghost use Rattle.pddl_scan.specs.InPieces.{word_view};
ghost use Rattle.pddl_scan.specs.WordLists.{IsMark, mark_view};

use pddl_token::{Span, Token, TokenKind, Word};
use std::alloc::{AllocError, Allocator};
use std::marker::Model;

/// A word whose bytes begin at a place of a buffer.
#[derive(Clone, Copy)]
pub struct Mark {
    pub kind: TokenKind,
    pub begins: usize,
    pub span: Span,
}

/// Words, their bytes one behind the other in one buffer.
///
/// Contracts see it as the list of these words.
#[derive(Drop)]
pub struct WordList<A: Allocator> {
    text: Vec<u8, A>,
    marks: Vec<Mark, A>,
}

impl<A: Allocator> Model for WordList<A> {
    ghost use Rattle.std.specs.Prelude.{List, map, length, All};
    ghost use Rattle.pddl_token.specs.Spelling.{PlacedWord};
    ghost use Rattle.pddl_scan.specs.WordLists.{IsMark, mark_view};

    ghost Value = { List PlacedWord };

    ghost view = { λ l. map (mark_view l.text.items) l.marks.items };

    ghost invariant = { λ l. All (IsMark (length l.text.items)) l.marks.items };
}

/// The word of a mark, lent.
fn lend<'l>(text: &'l [u8], mark: &Mark) -> Token<'l>
    requires { IsMark (length text.now) mark.now }
    ensures word { view result ≡ mark_view text.now mark.now }
    ensures whole { result.span.start + length result.text.now ≡ result.span.end }
{
    let len = (mark.span.end - mark.span.start) as usize;
    Token {
        kind: mark.kind,
        text: &text[mark.begins..mark.begins + len],
        span: mark.span,
    }
}

/// A word with a text of its own.
///
/// Fails where memory is refused.
fn owned<'a, B: Allocator>(alloc: &'a B, word: &Token<'_>) -> Result<Word<&'a B>, AllocError>
    ensures { IfOk result (λ own. word_view own ≡ view word.now) }
{
    Ok(Word {
        kind: word.kind,
        text: word.text.to_vec(alloc)?,
        span: word.span,
    })
}

impl<'a, B: Allocator> WordList<&'a B> {
    /// No words. It takes no memory.
    pub fn new(alloc: &'a B) -> WordList<&'a B>
        ensures { result ≡ [] }
    {
        WordList {
            text: Vec::new(alloc),
            marks: Vec::new(alloc),
        }
    }
}

impl<A: Allocator> WordList<A> {
    /// How many words there are.
    pub fn len(&self) -> usize
        ensures { result ≡ length self.now }
    {
        self.marks.len()
    }

    /// The word of a number, from 0.
    pub fn get(&self, number: usize) -> Token<'_>
        requires { number < length self.now }
        ensures word { slice_get self.now number ≡ Some (view result) }
        ensures whole { result.span.start + length result.text.now ≡ result.span.end }
    {
        lend(&self.text, &self.marks[number])
    }

    /// Leaves no words. Their memory stays.
    pub fn clear(&mut self)
        ensures { self.new ≡ [] }
    {
        self.marks.clear();
        self.text.clear();
    }

    /// Adds a word.
    ///
    /// Fails where memory is refused.
    pub fn push(&mut self, word: &Token<'_>) -> Result<(), AllocError>
        requires { word.now.span.start + length word.now.text.now ≡ word.now.span.end }
        ensures { OnOk result (self.new ≡ self.old ++ view word.now ∷ []) }
    {
        let begins = self.text.len();
        self.text.extend_from_slice(word.text)?;
        self.marks.push(Mark {
            kind: word.kind,
            begins,
            span: word.span,
        })?;
        Ok(())
    }

    /// Adds the words of another list from a number on.
    ///
    /// Fails where memory is refused.
    pub fn push_from<B: Allocator>(
        &mut self,
        words: &WordList<B>,
        from: usize,
    ) -> Result<(), AllocError>
        requires { from ≤ length words.now }
        ensures { OnOk result (self.new ≡ self.old ++ drop from words.now) }
    {
        let mut number = from;
        while number < words.len() {
            self.push(&words.get(number))?;
            number += 1;
        }
        Ok(())
    }

    /// The words as tokens, lent.
    ///
    /// Fails where memory is refused.
    pub fn tokens<B: Allocator>(&self, alloc: B) -> Result<Vec<Token<'_>, B>, AllocError>
        ensures { IfOk result (λ tokens. map view tokens.items ≡ self.now) }
    {
        let mut tokens = Vec::new(alloc);
        let mut number = 0;
        while number < self.len() {
            tokens.push(self.get(number))?;
            number += 1;
        }
        Ok(tokens)
    }

    /// The words, each with a text of its own.
    ///
    /// Fails where memory is refused.
    pub fn to_words<'a, B: Allocator>(
        &self,
        alloc: &'a B,
    ) -> Result<Vec<Word<&'a B>, &'a B>, AllocError>
        ensures { IfOk result (λ words. map word_view words.items ≡ self.now) }
    {
        let mut words = Vec::new(alloc);
        let mut number = 0;
        while number < self.len() {
            words.push(owned(alloc, &self.get(number))?)?;
            number += 1;
        }
        Ok(words)
    }
}
