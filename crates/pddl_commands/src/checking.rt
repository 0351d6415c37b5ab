//! The commands that check a domain, and a problem with its domain.

ghost use Rattle.std.specs.Prelude.{◌≡◌, ◌≢◌, ◌⊎◌, ℕ, List, true, IfOk, OnOk, IsErrOf, Ok};
ghost use Rattle.std.specs.Io.KnownBytes.{Appends, Consumes, Keeps};
ghost use Rattle.pddl_device.specs.Device.{AppendsBeginning, HasFailed};
ghost use Rattle.pddl_domain.specs.Domains.{domain_view};
ghost use Rattle.pddl_file_lines.specs.declared.outcome.Outcome.{Outcome};
ghost use Rattle.pddl_file_lines.specs.Contents.{IsLeft, IsNoDomain, IsRead};
ghost use Rattle.pddl_file_lines.specs.LinkRefusals.{AreAlike};
ghost use Rattle.pddl_file_lines.specs.Judgements.{ForProblem};
ghost use Rattle.pddl_commands.specs.Checks.{IsProblemJudged, IsDomainChecked, IsProblemChecked};

use crate::checked::{checked_domain, checked_problem};
use pddl_device::{Sink, Source, write_text};
use pddl_domain::{Domain, let_go_domain};
use pddl_domain_reader::read_domain;
use pddl_file_lines::{
    Content, Formatted, Outcome, RunFault, let_go_text, or_memory, read_file, refused_domain,
};
use pddl_kind::Kind;
use std::alloc::Allocator;

/// What `domain` prints for a reader's text, and the outcome. No writer plays a part.
fn read_domain_checked<'a, B: Allocator, S: Source>(
    alloc: &'a B,
    source: &mut S,
) -> Result<Formatted<'a, B>, RunFault>
    ensures answer { IfOk result (λ answer. (text : List ℕ) × IsLeft (S.remaining source.old) text × IsDomainChecked text answer.0.items answer.1) }
    ensures read { IfOk result (λ answer. IsRead Kind.Domain (S.at_end source.new) answer.0.items) }
    ensures good_at_end { IfOk result (λ answer. answer.1 ≡ Outcome.Good → S.at_end source.new ≡ true) }
    ensures none_failed { OnOk result (S.failures source.new ≡ S.failures source.old) }
    ensures memory { IsErrOf result RunFault.Memory → S.failures source.new ≡ S.failures source.old }
    ensures read_failed { IsErrOf result RunFault.ReadFailed → HasFailed (S.failures source.old) (S.failures source.new) }
    ensures no_write { ¬ IsErrOf result RunFault.WriteFailed }
    ensures stands { (given : List ℕ) × Consumes (S.remaining source.old) (S.remaining source.new) given }
{
    match read_file(alloc, Kind::Domain, source)? {
        Content::Text(text) => or_memory(checked_domain(alloc, text)),
        Content::TooLong(line) => Ok((line, Outcome::Refused)),
    }
}

/// What `problem` prints for a domain and a reader's text, and the outcome.
fn read_problem_checked<'a, B: Allocator, S: Source>(
    alloc: &'a B,
    domain: &Domain<&'a B>,
    source: &mut S,
) -> Result<Formatted<'a, B>, RunFault>
    ensures answer { IfOk result (λ answer. (text : List ℕ) × IsLeft (S.remaining source.old) text
        × ForProblem (IsProblemJudged (domain_view domain.now)) text answer.0.items answer.1) }
    ensures read { IfOk result (λ answer. IsRead Kind.Problem (S.at_end source.new) answer.0.items) }
    ensures good_at_end { IfOk result (λ answer. answer.1 ≡ Outcome.Good → S.at_end source.new ≡ true) }
    ensures none_failed { OnOk result (S.failures source.new ≡ S.failures source.old) }
    ensures memory { IsErrOf result RunFault.Memory → S.failures source.new ≡ S.failures source.old }
    ensures read_failed { IsErrOf result RunFault.ReadFailed → HasFailed (S.failures source.old) (S.failures source.new) }
    ensures no_write { ¬ IsErrOf result RunFault.WriteFailed }
    ensures stands { (given : List ℕ) × Consumes (S.remaining source.old) (S.remaining source.new) given }
{
    match read_file(alloc, Kind::Problem, source)? {
        Content::Text(text) => or_memory(checked_problem(alloc, domain, text)),
        Content::TooLong(line) => Ok((line, Outcome::Refused)),
    }
}

/// What `problem` prints for the texts of two readers, and the outcome. The second is not read where the first's text is refused.
fn read_both<'a, B: Allocator, S: Source, T: Source>(
    alloc: &'a B,
    domain: &mut S,
    problem: &mut T,
) -> Result<Formatted<'a, B>, RunFault>
    ensures answer { IfOk result (λ answer. (text given : List ℕ) × IsLeft (S.remaining domain.old) text × IsLeft (T.remaining problem.old) given
        × IsProblemChecked text given answer.0.items answer.1) }
    ensures read { IfOk result (λ answer. IsRead Kind.Domain (S.at_end domain.new) answer.0.items
        × ((problem.new ≡ problem.old) ⊎ IsRead Kind.Problem (T.at_end problem.new) answer.0.items)) }
    ensures good_at_end { IfOk result (λ answer. answer.1 ≡ Outcome.Good → (S.at_end domain.new ≡ true) × (T.at_end problem.new ≡ true)) }
    ensures none_failed { OnOk result ((S.failures domain.new ≡ S.failures domain.old) × (T.failures problem.new ≡ T.failures problem.old)) }
    ensures memory { IsErrOf result RunFault.Memory → (S.failures domain.new ≡ S.failures domain.old) × (T.failures problem.new ≡ T.failures problem.old) }
    ensures read_failed { IsErrOf result RunFault.ReadFailed → HasFailed (S.failures domain.old) (S.failures domain.new) ⊎ HasFailed (T.failures problem.old) (T.failures problem.new) }
    ensures no_write { ¬ IsErrOf result RunFault.WriteFailed }
    ensures stands { (given : List ℕ) × Consumes (S.remaining domain.old) (S.remaining domain.new) given }
    ensures problem_stands { (given : List ℕ) × Consumes (T.remaining problem.old) (T.remaining problem.new) given }
    ensures domain_first { IsNoDomain (S.remaining domain.old) → problem.new ≡ problem.old }
    ensures no_read_after_failure { S.failures domain.new ≢ S.failures domain.old → problem.new ≡ problem.old }
{
    match read_file(alloc, Kind::Domain, domain)? {
        Content::Text(text) => match read_domain(alloc, &text) {
            Ok(read) => {
                let_go_text(text);
                let answer = read_problem_checked(alloc, &read, problem);
                let_go_domain(read);
                answer
            }
            Err(fault) => or_memory(refused_domain(alloc, &text, &fault)),
        },
        Content::TooLong(line) => Ok((line, Outcome::Refused)),
    }
}

/// Checks a domain, and writes whether it is good, or its fault.
///
/// The file is read whole, its line is made, and then that is written. A good domain gives `good: domain NAME` and `Good`. Any other
/// file gives one line and `Refused`: the fault of its text, or the lowest fault of linking that the domain shows by itself.
///
/// # Errors
///
/// - `Memory`: a growth was refused. Nothing was written.
/// - `ReadFailed`: a read failed in this call. Nothing was written.
/// - `WriteFailed`: a write failed in this call. A beginning of the line was written.
pub fn check_domain_file<'a, B: Allocator, S: Source, W: Sink>(
    alloc: &'a B,
    domain: &mut S,
    out: &mut W,
) -> Result<Outcome, RunFault>
    // What is written is the outcome's line for all that the reader had left to give, and no call of either failed. The reader came to its
    // end, or past the limit of length, as the line says then.
    ensures outcome { IfOk result (λ outcome. (text printed : List ℕ) × IsLeft (S.remaining domain.old) text
        × IsRead Kind.Domain (S.at_end domain.new) printed × IsDomainChecked text printed outcome × Appends (W.contents out.old) (W.contents out.new) printed) }
    ensures none_failed { OnOk result ((S.failures domain.new ≡ S.failures domain.old) × (W.failures out.new ≡ W.failures out.old)) }

    // A file is good only where its reader came to its end.
    ensures good_at_end { result ≡ Ok Outcome.Good → S.at_end domain.new ≡ true }

    // For want of memory, or after a read of this call that failed, nothing is written.
    ensures memory { IsErrOf result RunFault.Memory → (S.failures domain.new ≡ S.failures domain.old)
        × Keeps (W.contents out.old) (W.contents out.new) × (W.failures out.new ≡ W.failures out.old) }
    ensures read_failed { IsErrOf result RunFault.ReadFailed → HasFailed (S.failures domain.old) (S.failures domain.new)
        × Keeps (W.contents out.old) (W.contents out.new) × (W.failures out.new ≡ W.failures out.old) }

    // After a write of this call that failed, a beginning of the outcome's line is written.
    ensures write_failed { IsErrOf result RunFault.WriteFailed → HasFailed (W.failures out.old) (W.failures out.new)
        × (S.failures domain.new ≡ S.failures domain.old)
        × ((text printed : List ℕ) × (outcome : Outcome) × IsLeft (S.remaining domain.old) text
        × IsRead Kind.Domain (S.at_end domain.new) printed × IsDomainChecked text printed outcome × AppendsBeginning (W.contents out.old) (W.contents out.new) printed) }

    // The reader stands after the bytes that it gave.
    ensures stands { (given : List ℕ) × Consumes (S.remaining domain.old) (S.remaining domain.new) given }
{
    let (printed, outcome) = read_domain_checked(alloc, domain)?;
    match write_text(out, &printed) {
        Ok(()) => Ok(outcome),
        Err(_) => Err(RunFault::WriteFailed),
    }
}

/// Checks a problem with its domain, and writes whether they are good, or their fault.
///
/// The domain is read whole and parsed, and then the problem; a problem whose domain's text is refused is not read. Files that link
/// give `good: problem NAME` and `Good`. Any others give one line and `Refused`: the fault of the first text that has one, or the
/// lowest fault of linking.
///
/// # Errors
///
/// - `Memory`: a growth was refused. Nothing was written.
/// - `ReadFailed`: a read failed in this call. Nothing was written.
/// - `WriteFailed`: a write failed in this call. A beginning of the line was written.
pub fn check_problem_file<'a, B: Allocator, S: Source, T: Source, W: Sink>(
    alloc: &'a B,
    domain: &mut S,
    problem: &mut T,
    out: &mut W,
) -> Result<Outcome, RunFault>
    // What is written is the outcome's line for all that the readers had left to give, and no call of the three failed. Each reader of which
    // anything was read came to its end, or past the limit of length, as the line says then.
    ensures outcome { IfOk result (λ outcome. (text given printed : List ℕ) × IsLeft (S.remaining domain.old) text × IsLeft (T.remaining problem.old) given
        × IsRead Kind.Domain (S.at_end domain.new) printed × ((problem.new ≡ problem.old) ⊎ IsRead Kind.Problem (T.at_end problem.new) printed)
        × IsProblemChecked text given printed outcome × Appends (W.contents out.old) (W.contents out.new) printed) }
    ensures none_failed { OnOk result ((S.failures domain.new ≡ S.failures domain.old) × (T.failures problem.new ≡ T.failures problem.old)
        × (W.failures out.new ≡ W.failures out.old)) }

    // Files are good only where their readers came to their ends.
    ensures good_at_end { result ≡ Ok Outcome.Good → (S.at_end domain.new ≡ true) × (T.at_end problem.new ≡ true) }

    // For want of memory, or after a read of this call that failed, nothing is written.
    ensures memory { IsErrOf result RunFault.Memory → (S.failures domain.new ≡ S.failures domain.old) × (T.failures problem.new ≡ T.failures problem.old)
        × Keeps (W.contents out.old) (W.contents out.new) × (W.failures out.new ≡ W.failures out.old) }
    ensures read_failed { IsErrOf result RunFault.ReadFailed
        → (HasFailed (S.failures domain.old) (S.failures domain.new) ⊎ HasFailed (T.failures problem.old) (T.failures problem.new))
        × Keeps (W.contents out.old) (W.contents out.new) × (W.failures out.new ≡ W.failures out.old) }

    // After a write of this call that failed, a beginning of the outcome's line is written.
    ensures write_failed { IsErrOf result RunFault.WriteFailed → HasFailed (W.failures out.old) (W.failures out.new)
        × (S.failures domain.new ≡ S.failures domain.old) × (T.failures problem.new ≡ T.failures problem.old)
        × ((text given printed : List ℕ) × (outcome : Outcome) × IsLeft (S.remaining domain.old) text × IsLeft (T.remaining problem.old) given
        × IsRead Kind.Domain (S.at_end domain.new) printed × ((problem.new ≡ problem.old) ⊎ IsRead Kind.Problem (T.at_end problem.new) printed)
        × IsProblemChecked text given printed outcome × AppendsBeginning (W.contents out.old) (W.contents out.new) printed) }

    // The readers stand after the bytes that they gave.
    ensures stands { (given : List ℕ) × Consumes (S.remaining domain.old) (S.remaining domain.new) given }
    ensures problem_stands { (given : List ℕ) × Consumes (T.remaining problem.old) (T.remaining problem.new) given }

    // The problem is not read where the domain's text, so far as it is known, spells no domain, or where a read of it failed.
    ensures domain_first { IsNoDomain (S.remaining domain.old) → problem.new ≡ problem.old }
    ensures no_read_after_failure { S.failures domain.new ≢ S.failures domain.old → problem.new ≡ problem.old }
{
    let (printed, outcome) = read_both(alloc, domain, problem)?;
    match write_text(out, &printed) {
        Ok(()) => Ok(outcome),
        Err(_) => Err(RunFault::WriteFailed),
    }
}

/// For one text, `domain` ends in one way, and prints one line but for the word of a fault of linking.
pub fn one_domain_outcome()
    ensures { (text printed other : List ℕ) (outcome ended : Outcome) → IsDomainChecked text printed outcome
        → IsDomainChecked text other ended → AreAlike printed other × (outcome ≡ ended) }
{}

/// For the texts of a domain and a problem, `problem` ends in one way, and prints one line but for the word of a fault of linking.
pub fn one_problem_outcome()
    ensures { (text problem printed other : List ℕ) (outcome ended : Outcome) → IsProblemChecked text problem printed outcome
        → IsProblemChecked text problem other ended → AreAlike printed other × (outcome ≡ ended) }
{}
