//! A space: gets from its cache and past it, and commits of 1, 10 and 1,000 pages.
mod commits;
mod kept;
mod made;
mod measured;

use anyhow::Result;

/// Makes a space on a disk in memory, commits to it, opens it anew and prints what it finds.
pub fn compare(rt: &HostRuntime) -> Result<()> {
    kept::count_kept(rt)
}

/// Prints what gets and commits take over files in the working folder.
pub fn measure(rt: &HostRuntime) -> Result<()> {
    measured::measure(rt)
}
