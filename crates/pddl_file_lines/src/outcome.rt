//! How a command ends, and the exit status for that.

ghost use Rattle.std.specs.Prelude.{◌≡◌, ◌↔◌, Ok, IsErr};
ghost use Rattle.pddl_file_lines.specs.declared.outcome.RunFault.TheVariants.{Memory};
ghost use Rattle.pddl_file_lines.specs.Made.{or_memory};

use std::alloc::AllocError;
use thiserror::Error;

/// What a command found. The text or the line that says so was written.
#[derive(Clone, Copy, Debug, PartialEq, Eq)]
pub enum Outcome {
    /// The files are good, and so is the plan.
    Good,
    /// The files are good, and the plan does not do what it has to.
    Invalid,
    /// A file is refused: it does not fit its language, or not the files that it is read with.
    Refused,
}

/// What is printed for a text, and the outcome.
pub type Formatted<'a, B> = (Vec<u8, &'a B>, Outcome);

/// Why a command was not carried out. The text is what standard error has after the program's name.
#[derive(Clone, Copy, Debug, PartialEq, Eq, Error)]
pub enum RunFault {
    /// A growth was refused.
    #[error("fault 0 Memory")]
    Memory,
    /// A read failed.
    #[error("fault 8 ReadFailed")]
    ReadFailed,
    /// A write failed, after a beginning of the text was written.
    #[error("fault 18 WriteFailed")]
    WriteFailed,
}

impl From<AllocError> for RunFault {
    ghost from_gives = { λ _ fault. fault ≡ Memory };

    fn from(_error: AllocError) -> RunFault {
        RunFault::Memory
    }
}

/// What was made, or `Memory` where memory for it was refused.
pub fn or_memory<T: Drop>(made: Result<T, AllocError>) -> Result<T, RunFault>
    ensures { result ≡ or_memory made }
{
    match made {
        Ok(made) => Ok(made),
        Err(_) => Err(RunFault::Memory),
    }
}

/// The exit status of a command that ended so: 0 good, 1 plan invalid, 2 a file refused, 4 reading, writing or memory.
/// 3 is left for words that ask for no command. Source of the numbers: own.
pub fn status(ended: &Result<Outcome, RunFault>) -> u8
    ensures good { (result ≡ 0) ↔ (ended.now ≡ Ok Outcome.Good) }
    ensures invalid { (result ≡ 1) ↔ (ended.now ≡ Ok Outcome.Invalid) }
    ensures refused { (result ≡ 2) ↔ (ended.now ≡ Ok Outcome.Refused) }
    ensures fault { (result ≡ 4) ↔ IsErr ended.now }
{
    match ended {
        Ok(Outcome::Good) => 0,
        Ok(Outcome::Invalid) => 1,
        Ok(Outcome::Refused) => 2,
        Err(_) => 4,
    }
}
