//! Names, numbers and signs of a text one by one, for who knows which may stand next: no token is made of them, a name is folded as its end is looked for,
//! and a number is valued once.

ghost use Rattle.std.specs.Prelude.{◌≡◌, ◌<◌, ◌≤◌, List, length, false, IsTrue, IfOk, IfSome, MatchOption};
ghost use Rattle.pddl_token.specs.declared.token.TokenKind.{TokenKind};
ghost use Rattle.pddl_token.specs.Spelling.{PlacedWord};
ghost use Rattle.pddl_scan.specs.Scanning.{LexedTo};
ghost use Rattle.pddl_scan.specs.Inner.Reading.{IsGapAt};
ghost use Rattle.pddl_text.specs.Inner.NextWords.{IsSign, ReadsName, ReadsNumber, ReadsSign};

use pddl_scan::{Next, begins_with_blank, next_part, number_at_front};
use pddl_token::{Fixed, Name, TokenKind};
use std::alloc::{AllocError, Allocator};

/// How long the blank or the comment is that stands at the front of a text, or 0 where none does.
fn gap_len(text: &[u8]) -> usize
    requires { 0 < length text.now }
    ensures { 0 < result → IsGapAt result text.now }
{
    if begins_with_blank(text) {
        1
    } else if text[0] == b';' {
        match next_part(text) {
            Next::Gap { len } => len,
            _ => 0,
        }
    } else {
        0
    }
}

/// Where the next word begins behind a place, if one does: behind blanks and comments.
fn word_begin(text: &[u8], from: usize) -> usize
    ensures lexed { (words : List PlacedWord) → LexedTo text.now words from → LexedTo text.now words result }
    ensures further { from ≤ result }
{
    let mut at = from;
    while at < text.len() {
        let len = gap_len(text.split_at(at).1);
        if len == 0 {
            return at;
        }
        at += len;
    }
    at
}

/// The name that stands next in a text behind a place, which moves behind it; or `None` where no name stands there, and the place stays.
///
/// Fails where memory for the name is refused.
pub fn next_name<'a, B: Allocator>(
    alloc: &'a B,
    text: &[u8],
    at: &mut usize,
) -> Result<Option<Name<&'a B>>, AllocError>
    ensures next { (words : List PlacedWord) → LexedTo text.now words at.old → IfOk result (λ found. IfSome found (ReadsName text.now words at.new)) }
    ensures moves { IfOk result (λ found. MatchOption found (at.new ≡ at.old) (λ _. (at.old < at.new) × (at.new ≤ length text.now))) }
{
    let begin = word_begin(text, *at);
    if begin >= text.len() {
        return Ok(None);
    }
    match Name::at_front(alloc, text.split_at(begin).1)? {
        Some((name, len)) => {
            *at = begin + len;
            Ok(Some(name))
        }
        None => Ok(None),
    }
}

/// The value of the number that stands next in a text behind a place, which moves behind it; or `None` where no number with a value stands there, and the
/// place stays.
pub fn next_number(text: &[u8], at: &mut usize) -> Option<Fixed>
    ensures next { (words : List PlacedWord) → LexedTo text.now words at.old → IfSome result (ReadsNumber text.now words at.new) }
    ensures moves { MatchOption result (at.new ≡ at.old) (λ _. (at.old < at.new) × (at.new ≤ length text.now)) }
{
    let begin = word_begin(text, *at);
    if begin >= text.len() {
        return None;
    }
    let (number, len) = number_at_front(text.split_at(begin).1)?;
    *at = begin + len;
    Some(number)
}

/// The byte of `(`, `)`, `-` or `=`.
fn sign_byte(kind: TokenKind) -> Option<u8>
    ensures { IfSome result (IsSign kind) }
{
    match kind {
        TokenKind::Open => Some(b'('),
        TokenKind::Close => Some(b')'),
        TokenKind::Dash => Some(b'-'),
        TokenKind::Equal => Some(b'='),
        _ => None,
    }
}

/// Whether `(`, `)`, `-` or `=` stands next in a text behind a place, which moves behind it then; of no other kind is it looked for.
pub fn next_sign(text: &[u8], at: &mut usize, kind: TokenKind) -> bool
    ensures next { (words : List PlacedWord) → LexedTo text.now words at.old → IsTrue result → ReadsSign text.now words at.new kind }
    ensures further { IsTrue result → (at.old < at.new) × (at.new ≤ length text.now) }
    ensures stays { result ≡ false → at.new ≡ at.old }
{
    let begin = word_begin(text, *at);
    match sign_byte(kind) {
        Some(sign) if begin < text.len() && text[begin] == sign => {
            *at = begin + 1;
            true
        }
        _ => false,
    }
}
