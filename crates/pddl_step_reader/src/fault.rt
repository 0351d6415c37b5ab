//! Why a file was not read.

ghost use Rattle.std.specs.Prelude.{◌≡◌};
ghost use Rattle.pddl_scan.specs.declared.fault.TextFault.TheVariants.{Memory};
ghost use Rattle.pddl_step_reader.specs.declared.fault.ReadFault.TheVariants.{Text};
ghost use Rattle.pddl_step_reader.specs.Places.{fault_place};

use pddl_scan::TextFault;
use pddl_token::Span;
use std::alloc::{AllocError, AllocFailed};
use thiserror::Error;

/// Why a text has no value. A fault of the text comes before a fault of what it spells.
#[derive(Debug, Drop, Error)]
pub enum ReadFault {
    /// The text has no items: it is too long, or a fault of its tokens, or of its lists; or memory was refused.
    #[error("{0}")]
    Text(TextFault),
    /// 15: no step follows here. The span is that of the next item; `near` is a place of the text at or after its start.
    #[error("no step at byte {}", span.start)]
    Step { span: Span, near: u32 },
    /// 16: a step of the other kind follows, plain behind timed ones or timed behind plain ones. The span is that of the step.
    #[error("a step of another kind at byte {}", span.start)]
    Mixed { span: Span },
    /// 17: a bracket follows a step, which is the form of a duration. The span is that of the bracket.
    #[error("a duration at byte {}", span.start)]
    Duration { span: Span },
}

impl ReadFault {
    /// The place of the fault in bytes, or that where its span starts. Want of memory and too long a text have none.
    pub fn place(&self) -> Option<u32>
        ensures { result ≡ fault_place self.now }
    {
        match self {
            ReadFault::Text(fault) => fault.place(),
            ReadFault::Step { span, .. } => Some(span.start),
            ReadFault::Mixed { span } => Some(span.start),
            ReadFault::Duration { span } => Some(span.start),
        }
    }
}

impl From<TextFault> for ReadFault {
    ghost from_gives = { λ text fault. fault ≡ Text text };

    fn from(fault: TextFault) -> ReadFault {
        ReadFault::Text(fault)
    }
}

impl From<AllocError> for ReadFault {
    ghost from_gives = { λ _ fault. fault ≡ Text Memory };

    fn from(_error: AllocError) -> ReadFault {
        ReadFault::Text(TextFault::Memory)
    }
}

impl<T: Drop> From<AllocFailed<T>> for ReadFault {
    ghost from_gives = { λ _ fault. fault ≡ Text Memory };

    fn from(_error: AllocFailed<T>) -> ReadFault {
        ReadFault::Text(TextFault::Memory)
    }
}
