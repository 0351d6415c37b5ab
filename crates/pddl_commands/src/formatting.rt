//! The command that prints a file in its canonical layout.

ghost use Rattle.std.specs.Prelude.{◌≡◌, ℕ, List, true, IfOk, OnOk, IsErrOf, Ok};
ghost use Rattle.std.specs.Io.KnownBytes.{Appends, Consumes, Keeps};
ghost use Rattle.pddl_device.specs.Device.{AppendsBeginning, HasFailed};
ghost use Rattle.pddl_kind.specs.declared.Kind.{Kind};
ghost use Rattle.pddl_file_lines.specs.declared.outcome.Outcome.{Outcome};
ghost use Rattle.pddl_file_lines.specs.Contents.{IsLeft, IsRead};
ghost use Rattle.pddl_commands.specs.Formats.{IsFormatted};

use crate::formatted::{formatted_domain, formatted_plan, formatted_problem};
use pddl_device::{Sink, Source, write_text};
use pddl_file_lines::{
    Content, Formatted, Outcome, PlanContent, RunFault, let_go_plan, or_memory, read_file,
    read_plan_file,
};
use pddl_kind::Kind;
use std::alloc::Allocator;

/// What is printed for a reader's text as a domain's, and the outcome. No writer plays a part.
fn read_formatted_domain<'a, B: Allocator, S: Source>(
    alloc: &'a B,
    source: &mut S,
) -> Result<Formatted<'a, B>, RunFault>
    ensures answer { IfOk result (λ answer. (text : List ℕ) × IsLeft (S.remaining source.old) text × IsFormatted Kind.Domain text answer.0.items answer.1) }
    ensures read { IfOk result (λ answer. IsRead Kind.Domain (S.at_end source.new) answer.0.items) }
    ensures good_at_end { IfOk result (λ answer. answer.1 ≡ Outcome.Good → S.at_end source.new ≡ true) }
    ensures none_failed { OnOk result (S.failures source.new ≡ S.failures source.old) }
    ensures memory { IsErrOf result RunFault.Memory → S.failures source.new ≡ S.failures source.old }
    ensures read_failed { IsErrOf result RunFault.ReadFailed → HasFailed (S.failures source.old) (S.failures source.new) }
    ensures no_write { ¬ IsErrOf result RunFault.WriteFailed }
    ensures stands { (given : List ℕ) × Consumes (S.remaining source.old) (S.remaining source.new) given }
{
    match read_file(alloc, Kind::Domain, source)? {
        Content::Text(text) => or_memory(formatted_domain(alloc, text)),
        Content::TooLong(line) => Ok((line, Outcome::Refused)),
    }
}

/// What is printed for a reader's text as a problem's, and the outcome. No writer plays a part.
fn read_formatted_problem<'a, B: Allocator, S: Source>(
    alloc: &'a B,
    source: &mut S,
) -> Result<Formatted<'a, B>, RunFault>
    ensures answer { IfOk result (λ answer. (text : List ℕ) × IsLeft (S.remaining source.old) text × IsFormatted Kind.Problem text answer.0.items answer.1) }
    ensures read { IfOk result (λ answer. IsRead Kind.Problem (S.at_end source.new) answer.0.items) }
    ensures good_at_end { IfOk result (λ answer. answer.1 ≡ Outcome.Good → S.at_end source.new ≡ true) }
    ensures none_failed { OnOk result (S.failures source.new ≡ S.failures source.old) }
    ensures memory { IsErrOf result RunFault.Memory → S.failures source.new ≡ S.failures source.old }
    ensures read_failed { IsErrOf result RunFault.ReadFailed → HasFailed (S.failures source.old) (S.failures source.new) }
    ensures no_write { ¬ IsErrOf result RunFault.WriteFailed }
    ensures stands { (given : List ℕ) × Consumes (S.remaining source.old) (S.remaining source.new) given }
{
    match read_file(alloc, Kind::Problem, source)? {
        Content::Text(text) => or_memory(formatted_problem(alloc, text)),
        Content::TooLong(line) => Ok((line, Outcome::Refused)),
    }
}

/// What is printed for a reader's text as a plan's, and the outcome. No writer plays a part.
fn read_formatted_plan<'a, B: Allocator, S: Source>(
    alloc: &'a B,
    source: &mut S,
) -> Result<Formatted<'a, B>, RunFault>
    ensures answer { IfOk result (λ answer. (text : List ℕ) × IsLeft (S.remaining source.old) text × IsFormatted Kind.Plan text answer.0.items answer.1) }
    ensures read { IfOk result (λ answer. IsRead Kind.Plan (S.at_end source.new) answer.0.items) }
    ensures good_at_end { IfOk result (λ answer. answer.1 ≡ Outcome.Good → S.at_end source.new ≡ true) }
    ensures none_failed { OnOk result (S.failures source.new ≡ S.failures source.old) }
    ensures memory { IsErrOf result RunFault.Memory → S.failures source.new ≡ S.failures source.old }
    ensures read_failed { IsErrOf result RunFault.ReadFailed → HasFailed (S.failures source.old) (S.failures source.new) }
    ensures no_write { ¬ IsErrOf result RunFault.WriteFailed }
    ensures stands { (given : List ℕ) × Consumes (S.remaining source.old) (S.remaining source.new) given }
{
    match read_plan_file(alloc, source)? {
        PlanContent::Plan(plan) => {
            let answer = formatted_plan(alloc, &plan);
            let_go_plan(plan);
            or_memory(answer)
        }
        PlanContent::Refused(line) => Ok((line, Outcome::Refused)),
    }
}

/// What is printed for a reader's text, and the outcome. No writer plays a part.
fn read_formatted<'a, B: Allocator, S: Source>(
    alloc: &'a B,
    kind: Kind,
    source: &mut S,
) -> Result<Formatted<'a, B>, RunFault>
    ensures answer { IfOk result (λ answer. (text : List ℕ) × IsLeft (S.remaining source.old) text × IsFormatted kind text answer.0.items answer.1) }
    ensures read { IfOk result (λ answer. IsRead kind (S.at_end source.new) answer.0.items) }
    ensures good_at_end { IfOk result (λ answer. answer.1 ≡ Outcome.Good → S.at_end source.new ≡ true) }
    ensures none_failed { OnOk result (S.failures source.new ≡ S.failures source.old) }
    ensures memory { IsErrOf result RunFault.Memory → S.failures source.new ≡ S.failures source.old }
    ensures read_failed { IsErrOf result RunFault.ReadFailed → HasFailed (S.failures source.old) (S.failures source.new) }
    ensures no_write { ¬ IsErrOf result RunFault.WriteFailed }
    ensures stands { (given : List ℕ) × Consumes (S.remaining source.old) (S.remaining source.new) given }
{
    match kind {
        Kind::Domain => read_formatted_domain(alloc, source),
        Kind::Problem => read_formatted_problem(alloc, source),
        Kind::Plan => read_formatted_plan(alloc, source),
    }
}

/// Writes a file in its canonical layout, or the line of its fault.
///
/// The file is read whole, of a plan without keeping its text; what is printed is made, and then it is written. A file that some
/// value spells gives the canonical text of that value and `Good`; any other gives one line with its fault and `Refused`.
///
/// # Errors
///
/// - `Memory`: a growth was refused. Nothing was written.
/// - `ReadFailed`: a read failed in this call. Nothing was written.
/// - `WriteFailed`: a write failed in this call. A beginning of the text was written.
pub fn format<'a, B: Allocator, S: Source, W: Sink>(
    alloc: &'a B,
    kind: Kind,
    source: &mut S,
    out: &mut W,
) -> Result<Outcome, RunFault>
    // What is written is the outcome's text for all that the reader had left to give, and no call of either failed. The reader came to its
    // end, or past the limit of length, as is written then.
    ensures outcome { IfOk result (λ outcome. (text printed : List ℕ) × IsLeft (S.remaining source.old) text
        × IsRead kind (S.at_end source.new) printed × IsFormatted kind text printed outcome × Appends (W.contents out.old) (W.contents out.new) printed) }
    ensures none_failed { OnOk result ((S.failures source.new ≡ S.failures source.old) × (W.failures out.new ≡ W.failures out.old)) }

    // A file is good only where its reader came to its end.
    ensures good_at_end { result ≡ Ok Outcome.Good → S.at_end source.new ≡ true }

    // For want of memory, or after a read of this call that failed, nothing is written.
    ensures memory { IsErrOf result RunFault.Memory → (S.failures source.new ≡ S.failures source.old)
        × Keeps (W.contents out.old) (W.contents out.new) × (W.failures out.new ≡ W.failures out.old) }
    ensures read_failed { IsErrOf result RunFault.ReadFailed → HasFailed (S.failures source.old) (S.failures source.new)
        × Keeps (W.contents out.old) (W.contents out.new) × (W.failures out.new ≡ W.failures out.old) }

    // After a write of this call that failed, a beginning of the outcome's text is written.
    ensures write_failed { IsErrOf result RunFault.WriteFailed → HasFailed (W.failures out.old) (W.failures out.new)
        × (S.failures source.new ≡ S.failures source.old)
        × ((text printed : List ℕ) × (outcome : Outcome) × IsLeft (S.remaining source.old) text
        × IsRead kind (S.at_end source.new) printed × IsFormatted kind text printed outcome × AppendsBeginning (W.contents out.old) (W.contents out.new) printed) }

    // The reader stands after the bytes that it gave.
    ensures stands { (given : List ℕ) × Consumes (S.remaining source.old) (S.remaining source.new) given }
{
    let (printed, outcome) = read_formatted(alloc, kind, source)?;
    match write_text(out, &printed) {
        Ok(()) => Ok(outcome),
        Err(_) => Err(RunFault::WriteFailed),
    }
}

/// For one text, `format` prints one text and ends in one way.
pub fn one_outcome()
    ensures { (kind : Kind) (text printed other : List ℕ) (outcome ended : Outcome) → IsFormatted kind text printed outcome
        → IsFormatted kind text other ended → (printed ≡ other) × (outcome ≡ ended) }
{}
