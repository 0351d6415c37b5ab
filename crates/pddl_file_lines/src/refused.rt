//! What is printed for files that are refused.

ghost use Rattle.std.specs.Prelude.{◌≡◌, ◌≢◌, ◌≤◌, ℕ, Some, length, IfOk};
ghost use Rattle.pddl_domain_reader.specs.DomainTexts.{DomainStands};
ghost use Rattle.pddl_problem_reader.specs.ProblemTexts.{ProblemStands};
ghost use Rattle.pddl_scan.specs.declared.fault.TextFault.TheVariants.{Memory};
ghost use Rattle.pddl_file.specs.declared.fault.FileFault.TheVariants.{Text};
ghost use Rattle.pddl_file.specs.Places.{file_place};
ghost use Rattle.pddl_kind.specs.declared.Kind.{Kind};
ghost use Rattle.pddl_kind.specs.Kinds.{kind_word};
ghost use Rattle.pddl_file_lines.specs.Contents.{IsTooLongLine};
ghost use Rattle.pddl_file_lines.specs.Inner.Faults.{is_file_memory, IsLinkFaultLine};
ghost use Rattle.pddl_file_lines.specs.Lines.{file_fault_name, IsFaultLine};
ghost use Rattle.pddl_file_lines.specs.Refusals.{IsRefused};

use crate::fault_names::{file_fault_name, link_fault_name, text_fault_name};
use crate::line::{fault_line, fault_line_at, position_of};
use crate::outcome::{Formatted, Outcome};
use pddl_faults::LinkFault;
use pddl_file::FileFault;
use pddl_kind::Kind;
use pddl_scan::{LONGEST, TextFault};
use std::alloc::{AllocError, Allocator};

/// The line of a file whose text is longer than the limit.
pub fn too_long<'a, B: Allocator>(alloc: &'a B, kind: Kind) -> Result<Vec<u8, &'a B>, AllocError>
    ensures { IfOk result (λ line. IsTooLongLine kind line.items) }
{
    fault_line(alloc, kind.word(), text_fault_name(&TextFault::TooLong))
}

/// Whether memory was refused.
fn is_memory(fault: &FileFault) -> bool
    ensures { result ≡ is_file_memory fault.now }
{
    match fault {
        FileFault::Text(TextFault::Memory) => true,
        _ => false,
    }
}

/// The line of a domain or a problem that is refused for a fault.
fn refused_file<'a, B: Allocator>(
    alloc: &'a B,
    kind: Kind,
    text: &[u8],
    fault: &FileFault,
) -> Result<Vec<u8, &'a B>, AllocError>
    requires { (at : ℕ) → file_place fault.now ≡ Some at → (at ≤ length text.now) × (at ≤ LONGEST) }
    ensures no_memory { IfOk result (λ line. fault.now ≢ Text Memory) }
    ensures line { IfOk result (λ line. IsFaultLine (kind_word kind) text.now (file_fault_name fault.now) (file_place fault.now) line.items) }
{
    if is_memory(fault) {
        return Err(AllocError);
    }
    let pos = position_of(text, fault.place());
    fault_line_at(alloc, kind.word(), file_fault_name(fault), pos)
}

/// What is printed for a domain's text in which a fault stands, and the outcome.
///
/// Fails where memory is refused, and so for want of memory in reading the text.
pub fn refused_domain<'a, B: Allocator>(
    alloc: &'a B,
    text: &[u8],
    fault: &FileFault,
) -> Result<Formatted<'a, B>, AllocError>
    requires { DomainStands fault.now text.now }
    ensures { IfOk result (λ answer. (answer.1 ≡ Outcome.Refused) × IsRefused Kind.Domain text.now answer.0.items) }
{
    let line = refused_file(alloc, Kind::Domain, text, fault)?;
    Ok((line, Outcome::Refused))
}

/// What is printed for a problem's text in which a fault stands, and the outcome.
///
/// Fails where memory is refused, and so for want of memory in reading the text.
pub fn refused_problem<'a, B: Allocator>(
    alloc: &'a B,
    text: &[u8],
    fault: &FileFault,
) -> Result<Formatted<'a, B>, AllocError>
    requires { ProblemStands fault.now text.now }
    ensures { IfOk result (λ answer. (answer.1 ≡ Outcome.Refused) × IsRefused Kind.Problem text.now answer.0.items) }
{
    let line = refused_file(alloc, Kind::Problem, text, fault)?;
    Ok((line, Outcome::Refused))
}

/// The line of a fault of linking.
fn link_line<'a, B: Allocator>(
    alloc: &'a B,
    fault: &LinkFault,
) -> Result<Vec<u8, &'a B>, AllocError>
    ensures { IfOk result (λ line. IsLinkFaultLine fault.now line.items) }
{
    match fault {
        LinkFault::Memory => Err(AllocError),
        _ => fault_line(alloc, b"link", link_fault_name(fault)),
    }
}

/// What is printed for a domain and a problem that do not link, or a domain that is not good alone, and the outcome.
///
/// Fails where memory is refused, and so for want of memory in linking.
pub fn refused_link<'a, B: Allocator>(
    alloc: &'a B,
    fault: &LinkFault,
) -> Result<Formatted<'a, B>, AllocError>
    ensures refused { IfOk result (λ answer. answer.1 ≡ Outcome.Refused) }
    ensures line { IfOk result (λ answer. IsLinkFaultLine fault.now answer.0.items) }
{
    Ok((link_line(alloc, fault)?, Outcome::Refused))
}
