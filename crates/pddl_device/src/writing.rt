//! A text written whole.

ghost use Rattle.std.specs.Prelude.{◌≡◌, OnOk, OnErr};
ghost use Rattle.std.specs.Io.KnownBytes.{Appends};
ghost use Rattle.pddl_device.specs.Device.{AppendsBeginning, HasFailed};

use crate::device::Sink;
use thiserror::Error;

/// Why a text was not written.
#[derive(Clone, Copy, Debug, PartialEq, Eq, Error)]
pub enum WriteFault {
    /// A write failed, or took no byte of a piece that has bytes.
    #[error("a write failed")]
    WriteFailed,
}

/// Writes a text, in as many writes as the writer wants. It grows nothing by itself.
///
/// The first write that fails ends the call with `WriteFailed`; the writer then has a beginning of the text, and
/// not all of it. Source of the rule: own.
pub fn write_text<W: Sink>(writer: &mut W, text: &[u8]) -> Result<(), WriteFault>
    // The whole text was written, and no write failed.
    ensures written { OnOk result (Appends (W.contents writer.old) (W.contents writer.new) text.now) }
    ensures none_failed { OnOk result (W.failures writer.new ≡ W.failures writer.old) }

    // A beginning of the text was written, and a write of this call failed.
    ensures beginning { OnErr result (AppendsBeginning (W.contents writer.old) (W.contents writer.new) text.now) }
    ensures write_failed { OnErr result (HasFailed (W.failures writer.old) (W.failures writer.new)) }
{
    let mut written = 0;
    while written < text.len() {
        match writer.write(&text[written..]) {
            Ok(0) => return Err(WriteFault::WriteFailed),
            Ok(count) => written += count,
            Err(_) => return Err(WriteFault::WriteFailed),
        }
    }
    Ok(())
}
