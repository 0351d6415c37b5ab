//! Faults of texts.

use crate::lines::Lines;
use pddl_faults::LinkFault;
use pddl_file::FileFault;
use pddl_file_lines::Outcome;
use pddl_scan::TextFault;
use pddl_step_reader::ReadFault;
use pddl_token::Span;
use std::alloc::Allocator;

/// Adds the line of a fault.
pub fn add_text_fault<B: Allocator>(alloc: &B, fault: TextFault, lines: &mut Lines) -> Outcome {
    if fault == TextFault::Memory {
        lines.refuse();
    }
    lines.made(format!(in alloc; "{fault:?}"));
    lines.end();
    Outcome::Refused
}

/// Adds the line of a fault by its number, its word, if it has one, and its span.
fn add_numbered(fault: (u64, &[u8], Option<Span>), lines: &mut Lines) -> Outcome {
    let (number, word, span) = fault;
    lines.word(b"fault");
    lines.shown(&number);
    if !word.is_empty() {
        lines.word(word);
    }
    if let Some(span) = span {
        lines.span(span);
    }
    lines.end();
    Outcome::Refused
}

/// Adds the line of a fault of a plan.
pub fn add_read_fault<B: Allocator>(alloc: &B, fault: &ReadFault, lines: &mut Lines) -> Outcome {
    let (number, span) = match fault {
        ReadFault::Text(fault) => return add_text_fault(alloc, *fault, lines),
        ReadFault::Step { span, .. } => (15, *span),
        ReadFault::Mixed { span } => (16, *span),
        ReadFault::Duration { span } => (17, *span),
    };
    add_numbered((number, b"", Some(span)), lines)
}

/// Adds the line of a fault of a domain or a problem.
pub fn add_file_fault<B: Allocator>(alloc: &B, fault: &FileFault, lines: &mut Lines) -> Outcome {
    let numbered: (u64, &[u8], Option<Span>) = match fault {
        FileFault::Text(fault) => return add_text_fault(alloc, *fault, lines),
        FileFault::Head { span } => (10, b"", Some(*span)),
        FileFault::Section { span, .. } => (11, b"", Some(*span)),
        FileFault::Unsupported { word, span } => (12, word.word(), Some(*span)),
        FileFault::Twice { keyword, span } => (13, keyword.text(), Some(*span)),
        FileFault::Missing { keyword } => (14, keyword.text(), None),
    };
    add_numbered(numbered, lines)
}

/// Adds the line of a fault of linking.
pub fn add_link_fault<B: Allocator>(alloc: &B, fault: LinkFault<'_>, lines: &mut Lines) -> Outcome {
    if matches!(fault, LinkFault::Memory) {
        lines.refuse();
    }
    lines.made(format!(in alloc; "{fault:?}"));
    lines.end();
    Outcome::Refused
}
