//! Lines of words that are separated by blanks.

use crate::row::Memory;
use pddl_device::{Sink, write_text};
use pddl_file_lines::{Outcome, RunFault};
use pddl_token::Span;
use std::alloc::{AllocError, Allocator, Global};
use std::fmt::Debug;
use std::str;

/// A text, which is empty where it is no UTF-8.
pub fn text_of(text: &[u8]) -> &str {
    match str::from_utf8(text) {
        Ok(text) => text,
        Err(_) => "",
    }
}

/// Whether a text has the same between two places as behind the second.
fn is_repeated(text: &[u8], start: usize, half: usize) -> bool {
    match text.split_at_checked(half) {
        Some((front, behind)) => {
            front.len().checked_sub(start) == Some(behind.len()) && front.ends_with(behind)
        }
        None => false,
    }
}

/// Lines so far. They are held in memory that no run refuses, so that each growth that is refused is one of the calls that are
/// listed. Once such a growth is, the lines are no more than a beginning, and that is told at the end.
#[derive(Drop)]
pub struct Lines {
    alloc: Global,
    text: Vec<u8>,
    /// Whether the line at hand has a word.
    has_word: bool,
    is_refused: bool,
    /// Whether lines were dropped and made again.
    has_begun_again: bool,
}

impl Lines {
    /// No lines.
    pub fn new(alloc: Global) -> Self {
        Lines {
            alloc,
            text: Vec::new(alloc),
            has_word: false,
            is_refused: false,
            has_begun_again: false,
        }
    }

    /// Memory was refused.
    pub fn refuse(&mut self) {
        self.is_refused = true;
    }

    /// Whether memory was refused. Then what was added past a place is dropped, to be made again by the same calls: since one growth
    /// alone is refused in a run, these have to give what they give with ample memory.
    pub fn begin_again(&mut self, start: usize) -> bool {
        if !self.is_refused {
            return false;
        }
        self.text.truncate(start);
        self.has_word = false;
        self.is_refused = false;
        self.has_begun_again = true;
        true
    }

    /// How many bytes there are.
    pub fn size(&self) -> usize {
        self.text.len()
    }

    /// Drops what was added past the second place, where the same was added between the two.
    pub fn merge(&mut self, start: usize, half: usize) {
        if is_repeated(&self.text, start, half) {
            self.text.truncate(half);
        }
    }

    /// What was made, where memory for it was given.
    pub fn kept<T: Drop>(&mut self, made: Result<Option<T>, AllocError>) -> Option<T> {
        match made {
            Ok(kept) => kept,
            Err(_) => {
                self.is_refused = true;
                None
            }
        }
    }

    /// Adds a value, if there is one, to a list of others.
    pub fn push<T: Drop, A: Allocator>(&mut self, list: &mut Vec<T, A>, value: Option<T>) {
        if let Some(value) = value {
            if list.push(value).is_err() {
                self.is_refused = true;
            }
        }
    }

    /// Adds bytes, which stand against what is before them.
    pub fn add(&mut self, bytes: &[u8]) {
        if self.text.extend_from_slice(bytes).is_err() {
            self.is_refused = true;
        }
    }

    /// Adds a word.
    pub fn word(&mut self, word: &[u8]) {
        if self.has_word {
            self.add(b" ");
        }
        self.has_word = true;
        self.add(word);
    }

    /// Adds words.
    pub fn words(&mut self, words: &[&[u8]]) {
        for word in words {
            self.word(*word);
        }
    }

    /// Adds words, and the line ends.
    pub fn line(&mut self, words: &[&[u8]]) {
        self.words(words);
        self.end();
    }

    /// Adds a word that was made.
    pub fn made<A: Allocator>(&mut self, made: Result<String<A>, AllocError>) {
        match made {
            Ok(word) => self.word(word.as_bytes()),
            Err(_) => self.is_refused = true,
        }
    }

    /// Adds what a value is printed as.
    pub fn shown<T: Debug>(&mut self, value: &T) {
        self.made(format!(in self.alloc; "{value:?}"));
    }

    /// Adds what a value is printed as, or `none`.
    pub fn shown_or_none<T: Debug + Copy>(&mut self, value: Option<T>) {
        match value {
            Some(value) => self.shown(&value),
            None => self.word(b"none"),
        }
    }

    /// Adds numbers.
    pub fn numbers<T: Debug>(&mut self, numbers: &[T]) {
        for number in numbers {
            self.shown(number);
        }
    }

    /// Adds a span.
    pub fn span(&mut self, span: Span) {
        self.shown(&span.start);
        self.add(b"..");
        self.has_word = false;
        self.shown(&span.end);
    }

    /// The line ends.
    pub fn end(&mut self) {
        self.has_word = false;
        self.add(b"\n");
    }

    /// What was added. Fails where memory was refused.
    pub fn text(&self) -> Result<&[u8], AllocError> {
        if self.is_refused {
            Err(AllocError)
        } else {
            Ok(&self.text)
        }
    }
}

/// Writes lines, where they were made. Lines that were made again without a refused growth count as want of memory, which no row allows.
pub fn write_lines<W: Sink>(
    memory: &Memory,
    outcome: Outcome,
    lines: &Lines,
    out: &mut W,
) -> Result<Outcome, RunFault> {
    if lines.has_begun_again && !memory.has_refused() {
        return Err(RunFault::Memory);
    }
    match write_text(out, lines.text()?) {
        Ok(()) => Ok(outcome),
        Err(_) => Err(RunFault::WriteFailed),
    }
}
