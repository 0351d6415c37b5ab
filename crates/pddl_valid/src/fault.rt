//! Why a list of steps is not executed to its end.

ghost use Rattle.std.specs.Prelude.{◌≡◌};
ghost use Rattle.pddl_valid.specs.declared.fault.ReplayFault.TheVariants.{Memory};

use std::alloc::AllocError;
use thiserror::Error;

/// Why a list of step numbers is not executed to its end. Own.
#[derive(Clone, Copy, Debug, Error)]
pub enum ReplayFault {
    /// 0: a growth was refused.
    #[error("memory was refused")]
    Memory,
    /// 60: the list has not each step once, or one of a later happening before one of an earlier.
    #[error("the list is no serialisation")]
    NotASerialisation,
    /// 62: the step at this place of the list, from 0, is the first whose precondition is false in the state before it.
    #[error("a step's precondition is false")]
    StepFails { place: usize },
}

impl From<AllocError> for ReplayFault {
    ghost from_gives = { λ _ fault. fault ≡ Memory };

    fn from(_error: AllocError) -> ReplayFault {
        ReplayFault::Memory
    }
}
