//! Why the pages of a disk were not found, or not looked at to the end.
ghost use Rattle.std.specs.Prelude.{◌≡◌};
ghost use Rattle.settled_pages.specs.declared.fault.LookFault.TheVariants as look;
ghost use Rattle.settled_pages.specs.declared.fault.SettleFault.TheVariants.{Disk, NoMemory};

use page_disk::Failed;
use std::alloc::AllocError;
use thiserror::Error;

/// Why the pages of a disk were not found.
#[derive(Clone, Copy, Debug, PartialEq, Eq, Error)]
pub enum SettleFault {
    /// The device failed. Comes only where the count of faults rose.
    #[error("the disk failed")]
    Disk,
    /// No warehouse is on the disk.
    #[error("there is no warehouse")]
    Empty,
    /// This page of the journal breaks the journal's rules, or is 0 where the journal has no page.
    #[error("journal page {0} is damaged")]
    BadJournal(u64),
    /// There was no memory.
    #[error("no memory")]
    NoMemory,
}

impl From<Failed> for SettleFault {
    ghost from_gives = { λ _ fault. fault ≡ Disk };

    fn from(_failed: Failed) -> SettleFault {
        SettleFault::Disk
    }
}

impl From<AllocError> for SettleFault {
    ghost from_gives = { λ _ fault. fault ≡ NoMemory };

    fn from(_error: AllocError) -> SettleFault {
        SettleFault::NoMemory
    }
}

/// Why a look at the free pages ended early.
#[derive(Clone, Copy, Debug, PartialEq, Eq, Error)]
pub enum LookFault {
    /// The device failed. Comes only where the count of faults rose.
    #[error("the disk failed")]
    Disk,
    /// There was no memory.
    #[error("no memory")]
    NoMemory,
}

impl From<Failed> for LookFault {
    ghost from_gives = { λ _ fault. fault ≡ look.Disk };

    fn from(_failed: Failed) -> LookFault {
        LookFault::Disk
    }
}
