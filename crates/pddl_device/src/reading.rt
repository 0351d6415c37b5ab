//! A text read whole.

ghost use Rattle.std.specs.Prelude.{◌≡◌, ◌<◌, ◌≤◌, ◌+◌, ℕ, List, true, vec_len, length, IfOk, OnOk, IfSome, IsErrOf};
ghost use Rattle.std.specs.Io.KnownBytes.{Consumes};
ghost use Rattle.pddl_device.specs.Device.{HasFailed};
ghost use Rattle.pddl_device.specs.declared.reading.SourceFault.TheVariants.{Memory};

use crate::device::Source;
use std::alloc::{AllocError, Allocator};
use thiserror::Error;

/// Why a text was not read.
#[derive(Clone, Copy, Debug, PartialEq, Eq, Error)]
pub enum SourceFault {
    /// A growth was refused.
    #[error("memory was refused")]
    Memory,
    /// The reader gave more bytes than the limit.
    #[error("the text is longer than its limit")]
    TooLong,
    /// A read failed.
    #[error("a read failed")]
    ReadFailed,
}

impl From<AllocError> for SourceFault {
    ghost from_gives = { λ _ fault. fault ≡ Memory };

    fn from(_error: AllocError) -> SourceFault {
        SourceFault::Memory
    }
}

/// How many bytes are asked for at a time.
const PIECE: usize = 4096;

/// Reads a text, of at most `limit` bytes, up to the reader's end.
///
/// The answer is all that the reader gave up to its end, and no read of this call failed. A text that passes the
/// limit is `TooLong` as soon as it does, and nothing more is read of it. The first read that fails ends the call
/// with `ReadFailed`. `Memory` is answered only where a growth was refused, which no clause can say. With a fault
/// nothing is handed out, and the reader stands after the bytes that it gave. Source of the rule: own.
pub fn read_all<A: Allocator, S: Source>(
    alloc: A,
    reader: &mut S,
    limit: usize,
) -> Result<Vec<u8, A>, SourceFault>
    // All bytes up to the reader's end, which was reached, and no read failed.
    ensures bytes { IfOk result (λ text. IfSome (S.remaining reader.old) (λ known. text.items ≡ known)) }
    ensures at_end { OnOk result (S.at_end reader.new ≡ true) }
    ensures none_failed { OnOk result (S.failures reader.new ≡ S.failures reader.old) }
    ensures within { IfOk result (λ text. vec_len text ≤ limit) }

    // More came.
    ensures too_long { IsErrOf result SourceFault.TooLong → IfSome (S.remaining reader.old) (λ known. limit < length known) }

    // A read of this call failed, and where another fault is answered none did.
    ensures read_failed { IsErrOf result SourceFault.ReadFailed → HasFailed (S.failures reader.old) (S.failures reader.new) }
    ensures memory_unfailed { IsErrOf result SourceFault.Memory → S.failures reader.new ≡ S.failures reader.old }
    ensures too_long_unfailed { IsErrOf result SourceFault.TooLong → S.failures reader.new ≡ S.failures reader.old }

    // The reader stands after the bytes that it gave: those of the text, or, in one piece that passes it, more than the limit.
    ensures taken { IfOk result (λ text. Consumes (S.remaining reader.old) (S.remaining reader.new) text.items) }
    ensures stands { (given : List ℕ) × Consumes (S.remaining reader.old) (S.remaining reader.new) given
        × (IsErrOf result SourceFault.TooLong → (limit < length given) × (length given ≤ limit + PIECE)) }
{
    let mut text = Vec::new(alloc);
    let mut piece = [0u8; PIECE];
    loop {
        let Ok(count) = reader.read(&mut piece) else {
            return Err(SourceFault::ReadFailed);
        };
        if count == 0 {
            return Ok(text);
        }
        if count > limit - text.len() {
            return Err(SourceFault::TooLong);
        }
        text.extend_from_slice(&piece[..count])?;
    }
}
