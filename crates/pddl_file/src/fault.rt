//! Why a domain or a problem was not read.

ghost use Rattle.std.specs.Prelude.{◌≡◌};
ghost use Rattle.pddl_scan.specs.declared.fault.TextFault.TheVariants.{Memory};
ghost use Rattle.pddl_file.specs.declared.fault.FileFault.TheVariants.{Text};
ghost use Rattle.pddl_file.specs.Places.{file_place};

use crate::keyword::SectionKeyword;
use crate::mark::Mark;
use pddl_scan::TextFault;
use pddl_token::Span;
use std::alloc::{AllocError, AllocFailed};
use thiserror::Error;

/// Why a text has no value. A fault of the text comes before a fault of what it spells.
#[derive(Debug, Drop, Error)]
pub enum FileFault {
    /// The text has no items: it is too long, or a fault of its tokens, or of its lists; or memory was refused.
    #[error("{0}")]
    Text(TextFault),
    /// 10: the text is no single list that begins `define` and the file's title. The span is 0 to 0 where there is no item,
    /// that of the first item where that begins otherwise, else that of the second.
    #[error("no file of this kind at byte {}", span.start)]
    Head { span: Span },
    /// 11: a section that fits no rule. `near` is a place inside it: its first byte.
    #[error("a section that fits no rule at byte {}", span.start)]
    Section { span: Span, near: u32 },
    /// 12: a section that fits no rule and has a list that is refused by name: the word, and the span of the first such list.
    #[error("a feature that is left out at byte {}", span.start)]
    Unsupported { word: Mark, span: Span },
    /// 13: a section whose keyword stood before, and its span.
    #[error("a section a second time at byte {}", span.start)]
    Twice { keyword: SectionKeyword, span: Span },
    /// 14: no section has this keyword, which is required.
    #[error("a section is missing")]
    Missing { keyword: SectionKeyword },
}

impl FileFault {
    /// The place of the fault in bytes, or that where its span starts. Want of memory, too long a text and a missing
    /// section have none.
    pub fn place(&self) -> Option<u32>
        ensures { result ≡ file_place self.now }
    {
        match self {
            FileFault::Text(fault) => fault.place(),
            FileFault::Head { span } => Some(span.start),
            FileFault::Section { span, .. } => Some(span.start),
            FileFault::Unsupported { span, .. } => Some(span.start),
            FileFault::Twice { span, .. } => Some(span.start),
            FileFault::Missing { .. } => None,
        }
    }
}

impl From<TextFault> for FileFault {
    ghost from_gives = { λ text fault. fault ≡ Text text };

    fn from(fault: TextFault) -> FileFault {
        FileFault::Text(fault)
    }
}

impl From<AllocError> for FileFault {
    ghost from_gives = { λ _ fault. fault ≡ Text Memory };

    fn from(_error: AllocError) -> FileFault {
        FileFault::Text(TextFault::Memory)
    }
}

impl<T: Drop> From<AllocFailed<T>> for FileFault {
    ghost from_gives = { λ _ fault. fault ≡ Text Memory };

    fn from(_error: AllocFailed<T>) -> FileFault {
        FileFault::Text(TextFault::Memory)
    }
}
