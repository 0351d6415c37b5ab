//! Reads a file of a command.

ghost use Rattle.std.specs.Prelude.{◌≡◌, ℕ, List, IfOk, OnOk, IsErrOf};
ghost use Rattle.std.specs.Io.KnownBytes.{Consumes};
ghost use Rattle.pddl_device.specs.Device.{HasFailed};
ghost use Rattle.pddl_file_lines.specs.Contents.{IsContent};

use crate::outcome::RunFault;
use crate::refused::too_long;
use pddl_device::{Source, SourceFault, read_all};
use pddl_kind::Kind;
use pddl_scan::LONGEST;
use std::alloc::Allocator;

/// What a file that was read holds.
#[derive(Drop)]
pub enum Content<'a, B: Allocator> {
    /// Its text.
    Text(Vec<u8, &'a B>),
    /// A text past the limit: the line that refuses the file.
    TooLong(Vec<u8, &'a B>),
}

/// Reads a file whole. No writer plays a part.
///
/// # Errors
///
/// - `Memory`: a growth was refused.
/// - `ReadFailed`: a read failed in this call.
pub fn read_file<'a, B: Allocator, S: Source>(
    alloc: &'a B,
    kind: Kind,
    source: &mut S,
) -> Result<Content<'a, B>, RunFault>
    ensures content { IfOk result (λ content. IsContent kind (S.remaining source.old) (S.at_end source.new) content) }
    ensures none_failed { OnOk result (S.failures source.new ≡ S.failures source.old) }
    ensures memory { IsErrOf result RunFault.Memory → S.failures source.new ≡ S.failures source.old }
    ensures read_failed { IsErrOf result RunFault.ReadFailed → HasFailed (S.failures source.old) (S.failures source.new) }
    ensures no_write { ¬ IsErrOf result RunFault.WriteFailed }
    ensures stands { (given : List ℕ) × Consumes (S.remaining source.old) (S.remaining source.new) given }
{
    match read_all(alloc, source, LONGEST) {
        Ok(text) => Ok(Content::Text(text)),
        Err(SourceFault::TooLong) => Ok(Content::TooLong(too_long(alloc, kind)?)),
        Err(SourceFault::Memory) => Err(RunFault::Memory),
        Err(SourceFault::ReadFailed) => Err(RunFault::ReadFailed),
    }
}

/// Lets go of a text that has been read.
///
/// Its block is cut to one byte first. The C library's heap maps a large block by itself, at the start of a page, until one of them is freed whole; then
/// blocks up to that size come from where small ones do. The tables that linking makes next are faster where their groups of 64 bytes lie in as many lines
/// of the cache.
pub fn let_go_text<A: Allocator>(mut text: Vec<u8, A>) {
    text.truncate(1);
    text.shrink_to_fit();
}
