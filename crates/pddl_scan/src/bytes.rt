//! What a byte of a text can begin.

ghost use Rattle.std.specs.Prelude.{◌≡◌};
ghost use Rattle.pddl_token.specs.Bytes.{is_line_byte, is_word_byte, is_inner_byte};
ghost use Rattle.pddl_scan.specs.Inner.ByteClass.{class_of, class_of_mark};

use pddl_token::{TokenKind, name_byte};

#[derive(Clone, Copy)]
pub enum ByteClass {
    Blank,
    Semicolon,
    Letter,
    Digit,
    Question,
    Colon,
    Angle,
    /// A byte that is a word by itself.
    Lone(TokenKind),
    Other,
}

pub fn class_of(byte: u8) -> ByteClass
    ensures { result ≡ class_of byte }
{
    if byte.is_ascii_whitespace() {
        ByteClass::Blank
    } else if byte.is_ascii_alphabetic() {
        ByteClass::Letter
    } else if byte.is_ascii_digit() {
        ByteClass::Digit
    } else {
        class_of_mark(byte)
    }
}

fn class_of_mark(byte: u8) -> ByteClass
    ensures { result ≡ class_of_mark byte }
{
    match byte {
        b';' => ByteClass::Semicolon,
        b'?' => ByteClass::Question,
        b':' => ByteClass::Colon,
        b'<' | b'>' => ByteClass::Angle,
        b'(' => ByteClass::Lone(TokenKind::Open),
        b')' => ByteClass::Lone(TokenKind::Close),
        b'-' => ByteClass::Lone(TokenKind::Dash),
        b'=' => ByteClass::Lone(TokenKind::Equal),
        b'[' | b']' => ByteClass::Lone(TokenKind::Bracket),
        b'+' | b'*' | b'/' => ByteClass::Lone(TokenKind::Arithmetic),
        _ => ByteClass::Other,
    }
}

pub fn is_word_byte(byte: u8) -> bool
    ensures { result ≡ is_word_byte byte }
{
    name_byte(byte) != 0
}

/// A byte that does not end a line.
pub fn is_line_byte(byte: u8) -> bool
    ensures { result ≡ is_line_byte byte }
{
    byte != b'\n'
}

/// A byte that is no blank, no parenthesis and no `;`.
pub fn is_inner_byte(byte: u8) -> bool
    ensures { result ≡ is_inner_byte byte }
{
    !(byte.is_ascii_whitespace() || byte == b'(' || byte == b')' || byte == b';')
}
