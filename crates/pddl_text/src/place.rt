//! Lines and columns.

ghost use Rattle.std.specs.Prelude.{◌≤◌, ◌↔◌, length, take, IfSome, IsSome};
ghost use Rattle.pddl_text.specs.Positions.{IsBehind};

use pddl_scan::LONGEST;

/// A line and a column, both counted from 1. A column is a number of bytes.
#[derive(Clone, Copy, Debug, PartialEq, Eq)]
pub struct Pos {
    pub line: u32,
    pub col: u32,
}

/// The position of a place in a text: its line is 1 and the number of LF before the place, its column 1 and the number of
/// bytes since the last of them. Own.
///
/// None past the text's end, which itself has a position, and past [`LONGEST`].
pub fn position(text: &[u8], place: u32) -> Option<Pos>
    ensures some { IsSome result ↔ ((place ≤ length text.now) × (place ≤ LONGEST)) }
    ensures behind { IfSome result (λ pos. IsBehind (take place text.now) pos) }
{
    let place = place as usize;
    if place > LONGEST || place > text.len() {
        return None;
    }
    let mut pos = Pos { line: 1, col: 1 };
    for byte in text.split_at(place).0 {
        if *byte == b'\n' {
            pos = Pos {
                line: pos.line + 1,
                col: 1,
            };
        } else {
            pos = Pos {
                line: pos.line,
                col: pos.col + 1,
            };
        }
    }
    Some(pos)
}
