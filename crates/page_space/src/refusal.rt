//! Why a disk was not opened.

use thiserror::Error;

/// Why a disk was not opened.
#[derive(Clone, Copy, Debug, PartialEq, Eq, Error)]
pub enum OpenFault {
    /// The device failed. Comes only where the count of faults rose.
    #[error("the disk failed")]
    Disk,
    /// No warehouse is on the disk.
    #[error("there is no warehouse")]
    Empty,
    /// This page is no spelling of what belongs there: 1, the superblock, or behind one 2, the meta
    /// page, by which also no more pages may be given out than there are and than the limit allows.
    #[error("page {0} is damaged")]
    Damaged(u64),
    /// There was no memory.
    #[error("no memory")]
    NoMemory,
    /// This page of the journal breaks the journal's rules, or is 0 where the journal has no page.
    #[error("journal page {0} is damaged")]
    BadJournal(u64),
}

/// A disk that was not opened, and why.
#[derive(Drop)]
pub struct OpenRefused<D> {
    pub fault: OpenFault,
    pub disk: D,
}
