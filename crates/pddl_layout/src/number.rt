//! The canonical text of numbers.

ghost use Rattle.std.specs.Prelude.{◌≡◌, ◌<◌, ◌≤◌, OnOk, OnErr, length, take};
ghost use Rattle.std.specs.Io.KnownBytes.{Appends};
ghost use Rattle.pddl_device.specs.Device.{AppendsBeginning, HasFailed};
ghost use Rattle.pddl_token.specs.Number.{largest};
ghost use Rattle.pddl_token.specs.NumberText.{padded, trimmed, pointed, number_text};
ghost use Rattle.pddl_layout.specs.Printing.{Prints};

use crate::printing::put;
use itoa::Buffer;
use pddl_device::{Sink, WriteFault};
use pddl_token::Fixed;

/// The billionths in one.
const ONE: u64 = 1_000_000_000;

/// Nine digits of a number, with zeros in front.
fn nine_digits(number: u64) -> [u8; 9]
    ensures { result ≡ padded 9 number }
{
    let mut digits = [b'0'; 9];
    let mut rest = number;
    let mut place = 9;
    while place > 0 {
        place -= 1;
        digits[place] = b'0' + (rest % 10) as u8;
        rest /= 10;
    }
    digits
}

/// How many digits stand up to the last one that is not `0`.
fn trimmed_len(digits: &[u8]) -> usize
    ensures value { take result digits.now ≡ trimmed digits.now }
    ensures in_range { result ≤ length digits.now }
{
    let mut len = digits.len();
    while len > 0 {
        if digits[len - 1] != b'0' {
            return len;
        }
        len -= 1;
    }
    0
}

/// Writes the decimals of a number below one, behind a point; nothing where it is zero.
fn put_decimals<W: Sink>(out: &mut W, billionths: u64) -> Result<(), WriteFault>
    ensures { Prints (W.contents out.old) (W.contents out.new) (W.failures out.old) (W.failures out.new) (pointed (trimmed (padded 9 billionths))) result }
{
    let digits = nine_digits(billionths);
    let len = trimmed_len(&digits);
    if len == 0 {
        return Ok(());
    }
    put(out, b".")?;
    put(out, digits.split_at(len).0)
}

/// Writes a number: its whole part, and its decimals without zeros at the end.
pub fn put_number<W: Sink>(out: &mut W, number: Fixed) -> Result<(), WriteFault>
    ensures printed { Prints (W.contents out.old) (W.contents out.new) (W.failures out.old) (W.failures out.new) (number_text number) result }
    ensures in_range { number ≤ largest }
{
    let billionths = number.billionths();
    let mut buffer = Buffer::new();
    put(out, buffer.format(billionths / ONE).as_bytes())?;
    put_decimals(out, billionths % ONE)
}

/// Writes the canonical text of a number: its whole part, and its decimals without zeros at the end.
///
/// # Errors
///
/// [`WriteFault::WriteFailed`] where a write failed in this call; a beginning of the text was then written.
pub fn write_number<W: Sink>(number: Fixed, out: &mut W) -> Result<(), WriteFault>
    // The number's text was written, and no write failed.
    ensures written { OnOk result (Appends (W.contents out.old) (W.contents out.new) (number_text number)) }
    ensures none_failed { OnOk result (W.failures out.new ≡ W.failures out.old) }

    // A beginning of it was written, and a write of this call failed.
    ensures beginning { OnErr result (AppendsBeginning (W.contents out.old) (W.contents out.new) (number_text number)) }
    ensures write_failed { OnErr result (HasFailed (W.failures out.old) (W.failures out.new)) }
{
    put_number(out, number)
}
