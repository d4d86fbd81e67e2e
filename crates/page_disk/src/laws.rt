//! What follows of the disk model, whatever the disk.
ghost use Rattle.page_disk.specs.Since.{SinceNowIsNow, SyncLeavesOne, SyncSettles};

/// Proves laws of the disk model; it does nothing when it runs.
pub fn crash_laws()
    ensures sync { SyncLeavesOne }
    ensures settled { SyncSettles }
    ensures now { SinceNowIsNow }
{}
