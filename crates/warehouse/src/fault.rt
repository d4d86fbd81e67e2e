ghost use Rattle.std.specs.Prelude.{◌≡◌};
ghost use Rattle.warehouse.specs.declared.fault.ListFault.TheVariants.{NoMemory};

use bw_types::Refusal;
use std::alloc::AllocError;
use thiserror::Error;

/// Why a batch was not committed. The warehouse is as it was before.
#[derive(Clone, Copy, PartialEq, Eq, Debug, Error)]
pub enum ListFault {
    /// The batch breaks a rule: this is its first refusal.
    #[error("the batch is refused at place {}", .0.place)]
    Refused(Refusal),
    /// Memory ran out.
    #[error("no memory")]
    NoMemory,
}

/// The version that was asked for is above the last one.
#[derive(Clone, Copy, PartialEq, Eq, Debug, Error)]
#[error("the last version is {last}")]
pub struct NoVersion {
    /// The number of the last version.
    pub last: u32,
}

impl From<AllocError> for ListFault {
    ghost from_gives = { λ _ fault. fault ≡ NoMemory };

    fn from(_: AllocError) -> ListFault {
        ListFault::NoMemory
    }
}
