//! Pieces of a text, written one after the other.

ghost use Rattle.pddl_layout.specs.Printing.{Prints};

use pddl_device::{Sink, WriteFault, write_text};

/// Writes a piece of a text.
pub fn put<W: Sink>(out: &mut W, piece: &[u8]) -> Result<(), WriteFault>
    ensures { Prints (W.contents out.old) (W.contents out.new) (W.failures out.old) (W.failures out.new) piece.now result }
{
    write_text(out, piece)
}
