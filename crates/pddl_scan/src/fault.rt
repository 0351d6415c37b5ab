//! Why a text has no words or no lists.

ghost use Rattle.std.specs.Prelude.{◌≡◌};
ghost use Rattle.pddl_scan.specs.declared.fault.TextFault.TheVariants.{Memory};
ghost use Rattle.pddl_scan.specs.Places.{text_place};

use std::alloc::{AllocError, AllocFailed};
use thiserror::Error;

/// The longest text, in bytes: 16 MiB. Own.
pub const LONGEST: usize = 16_777_216;

/// Why a text has no words or no lists. Own: PDDL's definitions name no faults.
///
/// Printed faults bear the number that each one has here. `at` is a place, in bytes from the beginning of the text. Of
/// faults 2 to 4, and then of 5 and 6, the leftmost is answered; 5 to 7 come only where a text has words, and 7 only
/// where neither 5 nor 6 stands. 9 comes only where a text is read in pieces.
#[derive(Clone, Copy, Debug, PartialEq, Eq, Error)]
pub enum TextFault {
    /// 0: a growth was refused. It says nothing of the text.
    #[error("memory was refused")]
    Memory,
    /// 1: the text has more than 16,777,216 bytes.
    #[error("the text is longer than 16 MiB")]
    TooLong,
    /// 2: the byte there, no blank and no `;`, begins no word. A `?` that no letter follows is one, and the `.` after a
    /// number that no digit follows.
    #[error("no word begins at byte {at}")]
    Stray { at: u32 },
    /// 3: a number begins there, and a letter, digit, `-` or `_` directly follows it.
    #[error("a word stands against the number at byte {at}")]
    Glued { at: u32 },
    /// 4: a number begins there that has no value: it is above 9999999999.999999999, or a decimal behind the ninth is
    /// other than `0`.
    #[error("the number at byte {at} is out of range")]
    NumberRange { at: u32 },
    /// 5: a `)` stands there, and the words before it form items, so that none is open.
    #[error("nothing is open at byte {at}")]
    Unopened { at: u32 },
    /// 6: a `(` stands there that would open a list at level 129.
    #[error("the list at byte {at} stands too deep")]
    TooDeep { at: u32 },
    /// 7: a `(` stands there that has no `)`; it is the leftmost such one.
    #[error("the list at byte {at} is not closed")]
    Unclosed { at: u32 },
    /// 9: a piece was refused before, so nothing is known of the text that the pieces make.
    #[error("an earlier piece of the text was refused")]
    AlreadyFailed,
}

impl TextFault {
    /// The place of the fault in bytes. Want of memory, too long a text and what comes after a refused piece have none.
    pub fn place(&self) -> Option<u32>
        ensures { result ≡ text_place self.now }
    {
        match self {
            TextFault::Memory | TextFault::TooLong | TextFault::AlreadyFailed => None,
            TextFault::Stray { at } => Some(*at),
            TextFault::Glued { at } => Some(*at),
            TextFault::NumberRange { at } => Some(*at),
            TextFault::Unopened { at } => Some(*at),
            TextFault::TooDeep { at } => Some(*at),
            TextFault::Unclosed { at } => Some(*at),
        }
    }
}

impl From<AllocError> for TextFault {
    ghost from_gives = { λ _ fault. fault ≡ Memory };

    fn from(_error: AllocError) -> TextFault {
        TextFault::Memory
    }
}

impl<T: Drop> From<AllocFailed<T>> for TextFault {
    ghost from_gives = { λ _ fault. fault ≡ Memory };

    fn from(_error: AllocFailed<T>) -> TextFault {
        TextFault::Memory
    }
}
