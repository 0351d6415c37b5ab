//! Pieces of a text, written one after the other.
//!
//! `failed` remembers that a write failed: from then on nothing is written. So a printing function has one way through,
//! and whoever began looks at it once, at the end.

ghost use Rattle.std.specs.Prelude.{◌≤◌, ◌++◌};
ghost use Rattle.pddl_token.specs.Number.{largest};
ghost use Rattle.pddl_token.specs.NumberText.{number_text};
ghost use Rattle.pddl_file_layout.specs.Inner.Printing.{Puts};

use pddl_device::{Sink, write_text};
use pddl_layout::write_number;
use pddl_token::Fixed;

/// Writes a piece of a text.
pub fn put<W: Sink>(out: &mut W, failed: &mut bool, piece: &[u8])
    ensures { Puts (W.contents out.old) (W.contents out.new) (W.failures out.old) (W.failures out.new) failed.old failed.new piece.now }
{
    if !*failed && write_text(out, piece).is_err() {
        *failed = true;
    }
}

/// Writes two pieces of a text, one behind the other.
pub fn put_both<W: Sink>(out: &mut W, failed: &mut bool, first: &[u8], second: &[u8])
    ensures { Puts (W.contents out.old) (W.contents out.new) (W.failures out.old) (W.failures out.new) failed.old failed.new (first.now ++ second.now) }
{
    put(out, failed, first);
    put(out, failed, second);
}

/// Writes a number.
pub fn put_number<W: Sink>(out: &mut W, failed: &mut bool, number: Fixed)
    ensures printed { Puts (W.contents out.old) (W.contents out.new) (W.failures out.old) (W.failures out.new) failed.old failed.new (number_text number) }
    ensures in_range { number ≤ largest }
{
    // says that the number is in range
    let _billionths = number.billionths();
    if !*failed && write_number(number, out).is_err() {
        *failed = true;
    }
}
