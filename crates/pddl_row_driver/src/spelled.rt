//! Texts as rows spell them.

use std::alloc::{AllocError, Global};
use std::mem;

/// The letters that stand for bytes behind a backslash, and these bytes.
static ESCAPES: [(&str, u8); 8] = [
    ("n", b'\n'),
    ("r", b'\r'),
    ("t", b'\t'),
    ("s", b' '),
    ("b", b'\\'),
    ("f", 0x0c),
    ("v", 0x0b),
    ("0", 0),
];

/// What the word that a line begins with stands for, and what stands behind it.
pub fn begun<'l, T: Copy>(line: &'l str, words: &[(&str, T)]) -> Option<(T, &'l str)> {
    for (word, meant) in words {
        if let Some(rest) = line.strip_prefix(*word) {
            return Some((*meant, rest));
        }
    }
    None
}

/// The number in front, and what stands behind it.
pub fn numbered<'l>(parts: Option<(&'l str, &'l str)>) -> Option<(u64, &'l str)> {
    let (number, rest) = parts?;
    match number.parse::<u64>() {
        Ok(number) => Some((number, rest)),
        Err(_) => None,
    }
}

/// The byte of `x` and two hexadecimal digits, and what stands behind them.
fn hexadecimal(part: &str) -> Option<(u8, &str)> {
    let (digits, rest) = part.strip_prefix('x')?.split_at_checked(2)?;
    match u8::from_str_radix(digits, 16) {
        Ok(byte) => Some((byte, rest)),
        Err(_) => None,
    }
}

/// What stands before and behind the first such part of a text.
fn parted<'t>(text: &'t [u8], part: &[u8]) -> Option<(&'t [u8], &'t [u8])> {
    for place in 0..text.len() {
        let (front, rest) = text.split_at(place);
        if let Some(behind) = rest.strip_prefix(part) {
            return Some((front, behind));
        }
    }
    None
}

/// A text in making. It is wrong once a piece spells nothing, or a growth was refused, which no row asks for.
#[derive(Drop)]
pub struct Spelled {
    pub alloc: Global,
    pub bytes: Vec<u8>,
    pub is_wrong: bool,
}

impl Spelled {
    /// A text without bytes.
    pub fn new(alloc: Global) -> Self {
        Spelled {
            alloc,
            bytes: Vec::new(alloc),
            is_wrong: false,
        }
    }

    /// The bytes so far, in whose place a new text begins.
    pub fn take(&mut self) -> Vec<u8> {
        mem::replace(&mut self.bytes, Vec::new(self.alloc))
    }

    /// Adds bytes.
    pub fn add_bytes(&mut self, bytes: &[u8]) {
        if self.bytes.extend_from_slice(bytes).is_err() {
            self.is_wrong = true;
        }
    }

    /// Adds the byte that these letters behind a backslash stand for, and what stands behind them.
    fn add_escaped(&mut self, part: &str) {
        match begun(part, &ESCAPES).or(hexadecimal(part)) {
            Some((byte, rest)) => {
                self.add_bytes(&[byte]);
                self.add_bytes(rest.as_bytes());
            }
            None => self.is_wrong = true,
        }
    }

    /// Adds a piece: a backslash and a letter, or `x` and two hexadecimal digits, stand for a byte.
    pub fn add(&mut self, piece: &str) {
        let mut parts = piece.split('\\');
        if let Some(plain) = parts.next() {
            self.add_bytes(plain.as_bytes());
        }
        for part in parts {
            self.add_escaped(part);
        }
    }

    /// Adds what was made of a number.
    fn add_made(&mut self, made: Result<String, AllocError>) {
        match made {
            Ok(made) => self.add_bytes(made.as_bytes()),
            Err(_) => self.is_wrong = true,
        }
    }

    /// Adds a number and so much more, which the first digit says, and what stands behind the digit.
    fn add_number(&mut self, number: u64, part: &str) {
        match numbered(part.split_at_checked(1)) {
            Some((more, rest)) => {
                let number = number.saturating_add(more);
                self.add_made(format!(in self.alloc; "{number}{rest}"));
            }
            None => self.is_wrong = true,
        }
    }

    /// Adds a piece in which `#` and a digit stand for a number and so much more.
    pub fn add_counted(&mut self, number: u64, piece: &str) {
        let mut parts = piece.split('#');
        if let Some(plain) = parts.next() {
            self.add_bytes(plain.as_bytes());
        }
        for part in parts {
            self.add_number(number, part);
        }
    }

    /// Puts a piece in place of the first such part.
    pub fn change_first(&mut self, part: &Spelled, other: &str) {
        let before = self.take();
        match parted(&before, &part.bytes) {
            Some((front, behind)) if !part.is_wrong => {
                self.add_bytes(front);
                self.add(other);
                self.add_bytes(behind);
            }
            _ => self.is_wrong = true,
        }
    }
}
