//! Why a check came to no answer.
ghost use Rattle.std.specs.Prelude.{◌≡◌};
ghost use Rattle.page_checks.specs.declared.fault.CheckFault.TheVariants.{NoMemory};

use std::alloc::AllocError;
use thiserror::Error;

/// Why a check came to no answer.
#[derive(Clone, Copy, Debug, PartialEq, Eq, Error)]
pub enum CheckFault {
    /// The device failed. Comes only where the count of faults rose.
    #[error("the disk failed")]
    Disk,
    /// There was no memory.
    #[error("no memory")]
    NoMemory,
}

impl From<AllocError> for CheckFault {
    ghost from_gives = { λ _ fault. fault ≡ NoMemory };

    fn from(_: AllocError) -> CheckFault {
        CheckFault::NoMemory
    }
}
