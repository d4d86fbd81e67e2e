//! Whether a node may be changed at a version.
ghost use Rattle.std.specs.Prelude.{◌≡◌, ◌↔◌, IsTrue};
ghost use Rattle.std.specs.List.{list_all};
ghost use Rattle.mv_pages.specs.Alive.{AreEntriesOf, IsChangeable};
ghost use Rattle.mv_pages.specs.Lows.{alive_lows, ascend, follows, is_past};

use crate::find::{OPEN, is_alive};
use page_layout::{MvEntry, MvNode};

/// Whether a node may be changed at a version: the version is below 4294967295, no entry starts after it
/// and none was closed after it, and no two entries that are alive at it begin at one low.
pub fn is_changeable(node: &MvNode, version: u32) -> bool
    requires { AreEntriesOf node.now.level node.now.entries.items }
    ensures { IsTrue result ↔ IsChangeable version node.now.entries.items }
{
    let entries = node.entries.as_slice();
    if version >= OPEN {
        return false;
    }
    if !are_past(entries, version) {
        return false;
    }
    do_ascend(entries, version)
}

fn are_past(entries: &[MvEntry], version: u32) -> bool
    ensures { result ≡ list_all (is_past version) entries.now }
{
    entries.iter().all(|e| (e.start <= version) & ((e.end == OPEN) | (e.end <= version)))
}

// Whether the low is above the last one.
fn follows(last: Option<u64>, low: u64) -> bool
    ensures { result ≡ follows last low }
{
    match last {
        Some(last) => last < low,
        None => true,
    }
}

// Whether the lows of the entries that are alive at the version ascend.
fn do_ascend(entries: &[MvEntry], version: u32) -> bool
    ensures { result ≡ ascend (alive_lows entries.now version) }
{
    let mut last = None;
    for e in entries {
        let alive = is_alive(e, version);
        if alive & !follows(last, e.low) {
            return false;
        }
        if alive {
            last = Some(e.low);
        }
    }
    true
}
