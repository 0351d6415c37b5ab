//! Why a plan is not split.

ghost use Rattle.std.specs.Prelude.{◌≡◌, Ok, IfOk, IsErrOf};
ghost use Rattle.pddl_serial_plans.specs.declared.fault.SplitFault.TheVariants as splits;

use std::alloc::AllocError;
use thiserror::Error;

/// Why a plan is not split. Own.
#[derive(Clone, Copy, Debug, Error)]
pub enum SplitFault {
    /// 0: a growth was refused.
    #[error("memory was refused")]
    Memory,
    /// 61: a group is empty, or not within one happening, or the groups one after another are no serialisation.
    #[error("the groups are no split of the happenings")]
    NotASplit,
}

impl From<AllocError> for SplitFault {
    ghost from_gives = { λ _ fault. fault ≡ splits.Memory };

    fn from(_error: AllocError) -> SplitFault {
        SplitFault::Memory
    }
}

/// What was made, or `Memory` where memory for it was refused.
pub(crate) fn or_memory<T: Drop>(made: Result<T, AllocError>) -> Result<T, SplitFault>
    ensures made { IfOk result (λ x. made ≡ Ok x) }
    ensures memory { ¬ IsErrOf result SplitFault.NotASplit }
{
    Ok(made?)
}

/// What was made of groups that are a split. Fails where memory for it was refused.
pub(crate) fn of_a_split<T: Drop>(made: Result<T, SplitFault>) -> Result<T, AllocError>
    requires { ¬ IsErrOf made SplitFault.NotASplit }
    ensures { IfOk result (λ x. made ≡ Ok x) }
{
    match made {
        Ok(made) => Ok(made),
        Err(SplitFault::Memory) => Err(AllocError),
        Err(SplitFault::NotASplit) => unreachable!(),
    }
}
