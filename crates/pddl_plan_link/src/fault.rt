//! Why plans are not linked.

ghost use Rattle.std.specs.Prelude.{◌≡◌};
ghost use Rattle.pddl_plan_link.specs.declared.fault.StepFault.TheVariants.{Memory};

use std::alloc::{AllocError, AllocFailed};
use thiserror::Error;

/// Why a plan is not linked: the fault, and the step where it stands, by its number in file order from 0. Own.
#[derive(Clone, Copy, Debug, Error)]
pub enum StepFault {
    /// A growth was refused.
    #[error("memory was refused")]
    Memory,
    /// 40: no action has the step's name.
    #[error("an action is not known")]
    UnknownAction { step: usize },
    /// 41: another number of objects than the action has parameters.
    #[error("a number of objects other than of parameters")]
    StepArity { step: usize },
    /// 42: a name that is no object of the task.
    #[error("an object is not known")]
    UnknownObject { step: usize },
    /// 43: an object that does not fit its parameter.
    #[error("an object does not fit its parameter")]
    StepType { step: usize },
    /// 44: the function term of one of the step's increases has no value in `:init`, under some valuation of the quantifiers around
    /// it, whether it fires or not; looked for where 46 does not stand.
    #[error("a cost has no value")]
    CostUndefined { step: usize },
    /// 45: the plan has over 1,000,000 steps.
    #[error("the plan is too long")]
    PlanTooLong,
    /// 46: the step's ground size is over 1,000,000.
    #[error("a step is too large")]
    StepTooLarge { step: usize },
}

impl From<AllocError> for StepFault {
    ghost from_gives = { λ _ fault. fault ≡ Memory };

    fn from(_error: AllocError) -> StepFault {
        StepFault::Memory
    }
}

impl<T: Drop> From<AllocFailed<T>> for StepFault {
    ghost from_gives = { λ _ fault. fault ≡ Memory };

    fn from(_error: AllocFailed<T>) -> StepFault {
        StepFault::Memory
    }
}
