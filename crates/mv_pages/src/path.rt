//! The child that a key leads to, with the keys that lead to it.
ghost use Rattle.std.specs.Prelude.{◌≡◌};
ghost use Rattle.mv_pages.specs.Alive.{next_entry};
ghost use Rattle.mv_pages.specs.Lows.{IsReached, low_of};

use crate::find::{next_index, path_index};
use page_layout::{MvEntry, MvNode};

/// The child to which a node leads at a key and a version, and the keys that lead to it there: those from
/// `low` on and, where there is a `next`, before it.
#[derive(Clone, Copy, Debug, PartialEq, Eq)]
pub struct Reached {
    pub child: u64,
    pub low: u64,
    pub next: Option<u64>,
}

/// The child to which a node leads at a key and a version, with the keys that lead to it: from the last
/// alive low at or below the key on, and before the first alive low above it. It is `None` exactly where
/// `child_at` is.
pub fn reached_at(node: &MvNode, key: u64, version: u32) -> Option<Reached>
    ensures { IsReached node.now key version result }
{
    if node.level == 1 {
        return None;
    }
    let entries = node.entries.as_slice();
    match path_index(entries, key, version) {
        Some(index) => Some(Reached {
            child: entries[index].child,
            low: entries[index].low,
            next: next_low(entries, key, version),
        }),
        None => None,
    }
}

// The first alive low above the key.
fn next_low(entries: &[MvEntry], key: u64, version: u32) -> Option<u64>
    ensures { result ≡ low_of (next_entry entries.now key version) }
{
    match next_index(entries, key, version) {
        Some(index) => Some(entries[index].low),
        None => None,
    }
}
