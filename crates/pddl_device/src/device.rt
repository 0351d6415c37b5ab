//! What a reader and a writer are to the rest of the program.

ghost use Rattle.std.specs.Prelude.{◌≡◌, ℕ, Bool, List, Option};
ghost use Rattle.std.specs.Io.{ReadsAtMost, WritesAtMost};
ghost use Rattle.std.specs.Io.KnownBytes.{ReadConsumes, WriteAppends};
ghost use Rattle.pddl_device.specs.Device.{failures_after_read, failures_after_write, is_end};

use thiserror::Error;

/// A read or a write that failed. Nothing more is known of it.
#[derive(Clone, Copy, Debug, PartialEq, Eq, Error)]
#[error("a read or a write failed")]
pub struct DeviceFault;

/// A reader of bytes, which tells what it has left to give, how often it failed, and whether it is at its end.
pub trait Source {
    /// The bytes that reads will give from here on, where they are known.
    ghost remaining: { Self → Option (List ℕ) };

    /// How many reads failed. At `u64::MAX` the count stays, and then nothing is claimed by it.
    ghost failures: { Self → ℕ };

    /// Whether the last read was at the end: it gave no byte to a slice that has room.
    ghost at_end: { Self → Bool };

    /// Puts the next bytes at the front of the slice, and answers how many they are.
    ///
    /// There is none only at the end, or where the slice has no room. A slice may be filled in part anywhere.
    /// A read that fails, with `DeviceFault`, gives nothing, and is counted.
    fn read(&mut self, buf: &mut [u8]) -> Result<usize, DeviceFault>
        ensures bound { ReadsAtMost result buf.new }
        ensures bytes { ReadConsumes (remaining self.old) (remaining self.new) result buf.new }
        ensures failures { failures self.new ≡ failures_after_read (failures self.old) result }
        ensures at_end { at_end self.new ≡ is_end result buf.new };
}

/// A writer of bytes, which tells what it holds and how often it failed.
pub trait Sink {
    /// The bytes that the writer holds, where they are known.
    ghost contents: { Self → Option (List ℕ) };

    /// How many writes failed, those that took no byte of a piece with bytes among them.
    /// At `u64::MAX` the count stays, and then nothing is claimed by it.
    ghost failures: { Self → ℕ };

    /// Takes bytes from the front of the piece, and answers how many they are; they may be fewer than the piece has.
    ///
    /// A write that fails, with `DeviceFault`, takes nothing. It is counted, and so is one that takes no byte of a
    /// piece that has bytes.
    fn write(&mut self, piece: &[u8]) -> Result<usize, DeviceFault>
        ensures bound { WritesAtMost result piece.now }
        ensures bytes { WriteAppends (contents self.old) (contents self.new) result piece.now }
        ensures failures { failures self.new ≡ failures_after_write (failures self.old) result piece.now };
}
