//! Reads the file of a plan, of which no text is kept.

ghost use Rattle.std.specs.Prelude.{◌≡◌, ◌<◌, ◌++◌, [], ◌↔◌, ℕ, List, true, length, IfOk, OnOk, IsErrOf, Err};
ghost use Rattle.std.specs.Io.KnownBytes.{Consumes};
ghost use Rattle.pddl_device.specs.Device.{HasFailed};
ghost use Rattle.pddl_text.specs.LineStarts.{line_starts};
ghost use Rattle.pddl_step_reader.specs.PlanTexts.{PlanStands};
ghost use Rattle.pddl_file_lines.specs.Contents.{IsLeft, IsPlanOf, IsPlanContent, IsPlanFile, HasCome};
ghost use Rattle.pddl_file_lines.specs.Inner.Faults.{is_memory};

use crate::fault_names::fault_name;
use crate::line::{fault_line_at, position_in};
use crate::outcome::{RunFault, or_memory};
use crate::refused::too_long;
use pddl_device::{Source, SourceFault};
use pddl_kind::Kind;
use pddl_plan::Plan;
use pddl_plan_reader::PlanReader;
use pddl_scan::{LONGEST, TextFault};
use pddl_step_reader::ReadFault;
use pddl_text::Places;
use std::alloc::{AllocError, Allocator};

/// How many bytes are asked for at a time.
const PIECE: usize = 4096;

/// What the file of a plan that was read holds.
#[derive(Drop)]
pub enum PlanContent<'a, B: Allocator> {
    /// The plan that its text spells.
    Plan(Plan<&'a B>),
    /// A text that no plan spells, or past the limit: the line that refuses the file.
    Refused(Vec<u8, &'a B>),
}

/// Lets a plan go. A crate in which one ends proves how it is taken apart, with each type in it; crates that call this do not.
pub fn let_go_plan<A: Allocator>(plan: Plan<A>) {
    drop(plan);
}

/// The file of a plan, so far as it has come.
#[derive(Drop)]
struct PlanFile<A: Allocator> {
    reader: PlanReader<A>,
    places: Places<A>,
}

/// Why a file is not read on after a piece that was refused.
fn refusal(fault: TextFault) -> SourceFault
    ensures too_long { (result ≡ SourceFault.TooLong) ↔ (fault ≡ TextFault.TooLong) }
    ensures no_read { ¬ (result ≡ SourceFault.ReadFailed) }
{
    match fault {
        TextFault::TooLong => SourceFault::TooLong,
        _ => SourceFault::Memory,
    }
}

impl<'a, B: Allocator> PlanFile<&'a B> {
    /// A file of which nothing has come.
    fn new(alloc: &'a B) -> PlanFile<&'a B>
        ensures { IsPlanFile result [] }
    {
        PlanFile {
            reader: PlanReader::new(alloc),
            places: Places::new(alloc),
        }
    }

    /// Takes the next piece.
    fn feed(&mut self, piece: &[u8]) -> Result<(), SourceFault>
        ensures stands { (text : List ℕ) → IsPlanFile self.old text → OnOk result (IsPlanFile self.new (text ++ piece.now)) }
        ensures too_long { (text : List ℕ) → IsPlanFile self.old text → IsErrOf result SourceFault.TooLong ↔ (LONGEST < length (text ++ piece.now)) }
        ensures no_read { ¬ IsErrOf result SourceFault.ReadFailed }
    {
        if let Err(fault) = self.reader.feed(piece) {
            return Err(refusal(fault));
        }
        if let Err(fault) = self.places.feed(piece) {
            return Err(refusal(fault));
        }
        Ok(())
    }
}

/// Reads a file up to its reader's end, or past the limit of length, and feeds each piece.
fn feed_all<'a, B: Allocator, S: Source>(
    file: &mut PlanFile<&'a B>,
    source: &mut S,
) -> Result<(), SourceFault>
    requires { IsPlanFile file.old [] }
    ensures come { OnOk result (HasCome file.new (S.remaining source.old)) }
    ensures at_end { OnOk result (S.at_end source.new ≡ true) }
    ensures none_failed { OnOk result (S.failures source.new ≡ S.failures source.old) }
    ensures too_long { IsErrOf result SourceFault.TooLong → (text : List ℕ) × IsLeft (S.remaining source.old) text × (LONGEST < length text) }
    ensures too_long_unfailed { IsErrOf result SourceFault.TooLong → S.failures source.new ≡ S.failures source.old }
    ensures memory_unfailed { IsErrOf result SourceFault.Memory → S.failures source.new ≡ S.failures source.old }
    ensures read_failed { IsErrOf result SourceFault.ReadFailed → HasFailed (S.failures source.old) (S.failures source.new) }
    ensures stands { (given : List ℕ) × Consumes (S.remaining source.old) (S.remaining source.new) given }
{
    let mut piece = [0u8; PIECE];
    let mut fed = 0;
    loop {
        let Ok(count) = source.read(&mut piece) else {
            return Err(SourceFault::ReadFailed);
        };
        if count == 0 {
            return Ok(());
        }
        if let Err(fault) = file.feed(&piece[..count]) {
            return Err(fault);
        }
        fed += count;
    }
}

/// Whether memory was refused.
fn is_memory(fault: &ReadFault) -> bool
    ensures { result ≡ is_memory fault.now }
{
    match fault {
        ReadFault::Text(TextFault::Memory) => true,
        _ => false,
    }
}

/// What a file holds in whose text a fault stands, by the places of the text.
///
/// Fails where memory is refused, and so for want of memory in reading the text.
fn refused_plan<'a, B: Allocator>(
    alloc: &'a B,
    places: &Places<&'a B>,
    fault: &ReadFault,
) -> Result<PlanContent<'a, B>, AllocError>
    ensures { (text : List ℕ) → places.now ≡ line_starts text → PlanStands fault.now text → IfOk result (λ content. IsPlanOf text content) }
{
    if is_memory(fault) {
        return Err(AllocError);
    }
    let pos = position_in(places, fault.place());
    let line = fault_line_at(alloc, Kind::Plan.word(), fault_name(fault), pos)?;
    Ok(PlanContent::Refused(line))
}

/// What a file holds of which all has come.
///
/// Fails where memory is refused, and so for want of memory in reading the text.
fn ended<'a, B: Allocator>(
    alloc: &'a B,
    file: PlanFile<&'a B>,
) -> Result<PlanContent<'a, B>, AllocError>
    ensures { (text : List ℕ) → IsPlanFile file.entry text → IfOk result (λ content. IsPlanOf text content) }
{
    let places = file.places;
    match file.reader.finish() {
        Ok(plan) => Ok(PlanContent::Plan(plan)),
        Err(fault) => refused_plan(alloc, &places, &fault),
    }
}

/// Reads the file of a plan whole, and keeps none of its text. No writer plays a part.
///
/// # Errors
///
/// - `Memory`: a growth was refused.
/// - `ReadFailed`: a read failed in this call.
pub fn read_plan_file<'a, B: Allocator, S: Source>(
    alloc: &'a B,
    source: &mut S,
) -> Result<PlanContent<'a, B>, RunFault>
    ensures content { IfOk result (λ content. IsPlanContent (S.remaining source.old) (S.at_end source.new) content) }
    ensures none_failed { OnOk result (S.failures source.new ≡ S.failures source.old) }
    ensures memory { IsErrOf result RunFault.Memory → S.failures source.new ≡ S.failures source.old }
    ensures read_failed { IsErrOf result RunFault.ReadFailed → HasFailed (S.failures source.old) (S.failures source.new) }
    ensures no_write { ¬ IsErrOf result RunFault.WriteFailed }
    ensures stands { (given : List ℕ) × Consumes (S.remaining source.old) (S.remaining source.new) given }
{
    let mut file = PlanFile::new(alloc);
    let fed = feed_all(&mut file, source);
    match fed.and(Ok(file)) {
        Ok(file) => or_memory(ended(alloc, file)),
        Err(SourceFault::TooLong) => Ok(PlanContent::Refused(too_long(alloc, Kind::Plan)?)),
        Err(SourceFault::Memory) => Err(RunFault::Memory),
        Err(SourceFault::ReadFailed) => Err(RunFault::ReadFailed),
    }
}
