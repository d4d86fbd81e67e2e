//! What a house answers.
use bw_types::Refusal;
use thiserror::Error;

/// Why a query was not answered. The house is as it was before.
#[derive(Clone, Copy, PartialEq, Eq, Debug, Error)]
pub enum QueryFault {
    /// The device failed.
    #[error("the disk failed")]
    Disk,
    /// The page is not as the program leaves it.
    #[error("page {0} is damaged")]
    Damaged(u64),
    /// The version is above the last one, which is this.
    #[error("the last version is {0}")]
    NoVersion(u32),
}

/// What became of a batch, and of the house.
#[derive(Drop)]
pub enum Committed<H, D> {
    /// The batch is the last one of the history now, with this version.
    Done { house: H, version: u32 },
    /// The batch breaks a rule: this is its first refusal. All is as before.
    Refused { house: H, refusal: Refusal },
    /// As many pages are given out as may be. All is as before.
    PageLimit { house: H, allotted: u64 },
    /// Memory ran out. All is as before.
    NoMemory { house: H },
    /// The page is not as the program leaves it. All is as before.
    Damaged { house: H, page: u64 },
    /// The device failed. It holds the history of before, or that with the batch.
    Disk { device: D },
}
