//! Numbers, places and names.

use pddl_file_lines::Outcome;
use pddl_row_driver::{Lines, text_of};
use pddl_text::{Pos, position};
use pddl_token::{Fixed, Name, value_of};
use std::alloc::Allocator;

/// What each line of a text is.
#[derive(Clone, Copy)]
pub enum Value {
    /// A number, of which the billionths are listed.
    Number,
    /// So many billionths, which are listed where a number has as many.
    Billionths,
    /// A name.
    Name,
}

/// The number of as many billionths as a text says, if there is one.
fn number_of(billionths: &str) -> Option<Fixed> {
    match billionths.parse::<u64>() {
        Ok(billionths) => Fixed::new(billionths),
        Err(_) => None,
    }
}

/// Adds a number in billionths, or `none`.
fn add_billionths(number: Option<Fixed>, lines: &mut Lines) {
    match number {
        Some(number) => lines.shown(&number.billionths()),
        None => lines.word(b"none"),
    }
}

/// Adds the name that a text is, or `none`.
fn add_name<B: Allocator>(alloc: &B, text: &[u8], lines: &mut Lines) {
    match lines.kept(Name::new(alloc, text)) {
        Some(name) => lines.word(name.as_bytes()),
        None => lines.word(b"none"),
    }
}

/// Adds what each line of a text is.
pub fn add_values<B: Allocator>(
    alloc: &B,
    value: Value,
    text: &[u8],
    lines: &mut Lines,
) -> Outcome {
    for line in text_of(text).lines() {
        match value {
            Value::Number => add_billionths(value_of(line.as_bytes()), lines),
            Value::Billionths => add_billionths(number_of(line), lines),
            Value::Name => add_name(alloc, line.as_bytes(), lines),
        }
        lines.end();
    }
    Outcome::Good
}

/// The position of a place that a text tells.
fn position_told(text: &[u8], place: &str) -> Option<Pos> {
    match place.parse::<u32>() {
        Ok(place) => position(text, place),
        Err(_) => None,
    }
}

/// Adds the line and the column, or `none`, of each place in a text that a line of another tells.
pub fn add_places(text: &[u8], places: &[u8], lines: &mut Lines) -> Outcome {
    for place in text_of(places).lines() {
        match position_told(text, place) {
            Some(found) => lines.numbers(&[found.line, found.col]),
            None => lines.word(b"none"),
        }
        lines.end();
    }
    Outcome::Good
}
