//! What a check finds.

/// What a check finds on a disk.
#[derive(Clone, Copy, PartialEq, Eq, Debug)]
pub enum Verdict {
    /// No warehouse is on the disk.
    Empty,
    /// The disk holds a history, with this last version and so many adds and withdrawals.
    Good { version: u32, rows: u32 },
    /// The first part that is broken. 1: the journal. 2: the superblock or the meta page, the number of its roots, or how many pages
    /// it says are given out. 3: the object table, or the event numbers and versions of its adds and withdrawals. 4: the history that
    /// these are, or the lives and the numbers that the table and the meta page tell of it. 5: the trees or their balance, a page
    /// that is in two places, or the free pages.
    Broken(u8),
}
