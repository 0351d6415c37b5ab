//! What stands at the front of a text.

ghost use Rattle.std.specs.Prelude.{◌≡◌, ◌<◌, ◌≤◌, ℕ, List, length, true, ◌==◌, IfSome};
ghost use Rattle.std.specs.List.{prefix_len};
ghost use Rattle.std.specs.Char.{is_ascii_digit, is_ascii_whitespace};
ghost use Rattle.pddl_token.specs.Bytes.{begins, is_line_byte, is_word_byte};
ghost use Rattle.pddl_token.specs.Number.{value_of};
ghost use Rattle.pddl_scan.specs.Inner.Reading.{number_len, next_comment, next_number, next_by, next_of, IsGapAt, IsNumberAt, Reads};
ghost use Rattle.pddl_scan.specs.Inner.Parts.{Settles, ReadsOn};

use crate::bytes::{ByteClass, class_of, is_line_byte, is_word_byte};
use pddl_token::{Fixed, TokenKind, begins_name, digits_len, value_of, word_len};

/// What stands at the front of a text.
#[derive(Clone, Copy)]
pub enum Next {
    /// A blank or a comment.
    Gap { len: usize },
    /// A word, which has a value if it is a number.
    Word { kind: TokenKind, len: usize },
    /// A comment that the text's end ends.
    OpenComment,
    /// A byte that begins no word.
    Stray,
    /// A number that a word byte follows.
    Glued,
    /// A number with no value.
    OutOfRange,
}

/// A word of the first bytes.
fn word(kind: TokenKind, len: usize) -> Next
    ensures { result ≡ Next.Word kind len }
{
    Next::Word { kind, len }
}

fn begins_digits(text: &[u8]) -> bool
    ensures { result ≡ begins is_ascii_digit text.now }
{
    match text {
        [] => false,
        [first, ..] => first.is_ascii_digit(),
    }
}

fn begins_with_equal(text: &[u8]) -> bool
    ensures { result ≡ begins (λ b. b == 61) text.now }
{
    match text {
        [] => false,
        [first, ..] => *first == b'=',
    }
}

fn begins_with_word_byte(text: &[u8]) -> bool
    ensures { result ≡ begins is_word_byte text.now }
{
    match text {
        [] => false,
        [first, ..] => is_word_byte(*first),
    }
}

/// How long the longest number at the front is.
#[tactic(auto, unfolding(crate::specs::Inner::Reading::number_len))]
fn number_len(text: &[u8]) -> usize
    ensures value { result ≡ number_len text.now }
    ensures in_range { result ≤ length text.now }
{
    let whole = digits_len(text);
    match text.split_at(whole).1 {
        [b'.', decimals @ ..] if begins_digits(decimals) => whole + 1 + digits_len(decimals),
        _ => whole,
    }
}

/// How many bytes stand before the first LF.
pub fn line_len(text: &[u8]) -> usize
    ensures value { result ≡ prefix_len is_line_byte text.now }
    ensures in_range { result ≤ length text.now }
{
    text.iter().take_while(|b| is_line_byte(**b)).count()
}

#[tactic(auto, unfolding(crate::specs::Inner::Reading::next_comment))]
fn next_comment(text: &[u8]) -> Next
    ensures { result ≡ next_comment text.now }
{
    let len = line_len(text);
    if len < text.len() {
        Next::Gap { len: len + 1 }
    } else {
        Next::OpenComment
    }
}

#[tactic(auto, unfolding(crate::specs::Inner::Reading::next_number))]
fn next_number(text: &[u8]) -> Next
    ensures { result ≡ next_number text.now }
{
    let len = number_len(text);
    let (number, after) = text.split_at(len);
    if begins_with_word_byte(after) {
        Next::Glued
    } else if value_of(number).is_some() {
        word(TokenKind::Number, len)
    } else {
        Next::OutOfRange
    }
}

#[tactic(auto, unfolding(crate::specs::Inner::Reading::next_by, crate::specs::Inner::Reading::next_of))]
fn scan(text: &[u8]) -> Next
    ensures { result ≡ next_of text.now }
{
    let [first, rest @ ..] = text else {
        return Next::Stray;
    };
    match class_of(*first) {
        ByteClass::Blank => Next::Gap { len: 1 },
        ByteClass::Semicolon => next_comment(text),
        ByteClass::Letter => word(TokenKind::Name, word_len(text)),
        ByteClass::Digit => next_number(text),
        ByteClass::Question if begins_name(rest) => word(TokenKind::Variable, 1 + word_len(rest)),
        ByteClass::Colon if begins_name(rest) => word(TokenKind::Keyword, 1 + word_len(rest)),
        ByteClass::Colon => word(TokenKind::Colon, 1),
        ByteClass::Angle if begins_with_equal(rest) => word(TokenKind::Compare, 2),
        ByteClass::Angle => word(TokenKind::Compare, 1),
        ByteClass::Lone(kind) => word(kind, 1),
        ByteClass::Question | ByteClass::Other => Next::Stray,
    }
}

/// Whether a blank stands at the front, which is a gap by itself.
pub fn begins_with_blank(text: &[u8]) -> bool
    ensures blank { result ≡ begins is_ascii_whitespace text.now }
    ensures gap { result ≡ true → IsGapAt 1 text.now }
{
    match text {
        [] => false,
        [first, ..] => first.is_ascii_whitespace(),
    }
}

/// The value of the number at the front of a text, which is as long as can be, and its length; `None` where no digit is first, a word byte follows the
/// number, or it has no value.
pub fn number_at_front(text: &[u8]) -> Option<(Fixed, usize)>
    ensures { IfSome result (λ front. IsNumberAt text.now front.0 front.1) }
{
    if !begins_digits(text) {
        return None;
    }
    let len = number_len(text);
    let (number, after) = text.split_at(len);
    if begins_with_word_byte(after) {
        return None;
    }
    Some((value_of(number)?, len))
}

/// What stands at the front of a text that has a byte.
pub fn next_part(text: &[u8]) -> Next
    requires { 0 < length text.now }
    ensures reads { Reads result text.now }
    // It stands there too where more bytes follow, unless they could change it.
    ensures ahead { (more : List ℕ) → Settles text.now more → ReadsOn result text.now more }
{
    scan(text)
}
