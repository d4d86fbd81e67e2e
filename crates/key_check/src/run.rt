//! The runs of entries that lead the same low to the same child.
ghost use Rattle.std.specs.Prelude.{◌≡◌, ℕ, ◌<◌, ◌≤◌, length};
ghost use Rattle.key_check.specs.Runs.{IsRun, continues};

use crate::life::end_of;
use page_layout::MvEntry;

/// Where a run of entries ends, and the place behind it.
#[derive(Clone, Copy)]
pub(crate) struct Run {
    pub(crate) end: u64,
    pub(crate) behind: usize,
}

/// The run that begins at a place: an entry whose value changes is closed and goes on in the next one, to the same child.
pub(crate) fn run_of(entries: &[MvEntry], place: usize) -> Run
    requires { place < length entries.now }
    ensures on { (place < result.behind) × (result.behind ≤ length entries.now) }
    ensures run { IsRun entries.now place result.end result.behind }
{
    let mut last = place;
    while last + 1 < entries.len() && continues(&entries[last], &entries[last + 1]) {
        last += 1;
    }
    Run {
        end: end_of(&entries[last]),
        behind: last + 1,
    }
}

fn continues(e: &MvEntry, f: &MvEntry) -> bool
    ensures { result ≡ continues e.now f.now }
{
    let end = end_of(e);
    let start = u64::from(f.start);
    (e.low == f.low && e.child == f.child)
        && (u64::from(e.start) < end && (end == start && start < end_of(f)))
}
