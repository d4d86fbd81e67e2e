//! How an addition changes the entries of a node.
ghost use Rattle.std.specs.Prelude.{◌≡◌, ◌<◌, ◌≤◌, length};
ghost use Rattle.std.specs.List.{AllAdjacentBelow};
ghost use Rattle.sb_tree.specs.Edits.{TakesIn, beside};

use crate::entries::begun_count;
use crate::second::Second;
use arrayvec::ArrayVec;
use page_layout::{SbEntry, raise_at};

/// Takes an addition into the entries of a leaf.
pub fn take_in(entries: &mut ArrayVec<SbEntry, 65>, version: u32, value: u128)
    requires order { AllAdjacentBelow (λ e next. e.low < next.low) entries.old.items (length entries.old.items) }
    requires room { length entries.old.items ≤ 64 }
    ensures { TakesIn entries.old.items entries.new.items version value }
{
    let begun = begun_count(entries.as_slice(), version);
    if begun > 0 && entries.as_slice()[begun - 1].low == version {
        raise_at(entries, begun - 1, value);
        return;
    }
    let entry = SbEntry {
        low: version,
        value,
        child: 0,
    };
    entries.insert(begun, entry);
}

/// Takes an addition below the last of the first `begun` entries of an index node into those after it,
/// and the second page of its child, where that was split.
pub fn add_beside(
    entries: &mut ArrayVec<SbEntry, 65>,
    begun: usize,
    value: u128,
    second: Option<Second>,
)
    requires begun { begun ≤ length entries.old.items }
    requires room { length entries.old.items ≤ 64 }
    ensures { entries.new.items ≡ beside entries.old.items begun value second }
{
    raise_at(entries, begun, value);
    if let Some(second) = second {
        let entry = SbEntry {
            low: second.low,
            value: 0,
            child: second.page,
        };
        entries.insert(begun, entry);
    }
}
