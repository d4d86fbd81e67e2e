//! The way through an index node.
ghost use Rattle.std.specs.Prelude.{◌≡◌, ◌≤◌, ◌<◌, ◌+◌, ℕ, length, drop, get_or, IfSome, None};
ghost use Rattle.page_layout.specs.declared.life_node.LifeEntry.{LifeEntry};
ghost use Rattle.object_table.specs.Keys.{low_key as spec_low_key};
ghost use Rattle.object_table.specs.Nodes.{entries_in};
ghost use Rattle.object_table.specs.Stands.{first_low};
ghost use Rattle.object_table.specs.Steps.{IsCut, IsStepTo};

use crate::key::low_key;
use crate::place::Place;
use crate::view::NodeView;

/// A child of an index node, and the place by which it is reached.
#[derive(Clone, Copy)]
pub struct Step {
    pub child: u64,
    pub place: Place,
}

/// How many of the entries begin at or below the key sought.
pub fn begun_count(node: &NodeView, sought: u128) -> usize
    ensures { IsCut (entries_in node.now) result sought }
{
    node.is_in_order();
    let mut begun: usize = 0;
    let mut end = node.entry_count();
    while begun < end {
        let middle = begun + (end - begun) / 2;
        if low_key(&node.entry(middle)) <= sought {
            begun = middle + 1;
        } else {
            end = middle;
        }
    }
    begun
}

/// Where the first of the entries from an index on begins, or `high` where there is none.
pub fn low_from(node: &NodeView, index: usize, high: u128) -> u128
    ensures { result ≡ first_low (drop index (entries_in node.now)) high }
{
    if index >= node.entry_count() {
        return high;
    }
    low_key(&node.entry(index))
}

/// The step to the entry at an index, on the way to the key.
pub fn step_to(node: &NodeView, index: usize, place: Place, sought: u128) -> Step
    requires { index < length (entries_in node.now) }
    ensures { (d : LifeEntry) → IsStepTo result (get_or (entries_in node.now) index d) (drop (index + 1) (entries_in node.now)) place.high sought }
{
    node.is_in_order();
    let entry = node.entry(index);
    Step {
        child: entry.child,
        place: Place {
            low: low_key(&entry),
            high: low_from(node, index + 1, place.high),
            sought,
        },
    }
}

/// The step to the entry at an index, for the keys from where it begins on; none where there is no such
/// entry.
pub fn step_past(node: &NodeView, index: usize, place: Place) -> Option<Step>
    ensures none { result ≡ None → length (entries_in node.now) ≤ index }
    ensures within { IfSome result (λ step. index < length (entries_in node.now)) }
    ensures step { IfSome result (λ step. (d : LifeEntry)
        → IsStepTo step (get_or (entries_in node.now) index d) (drop (index + 1) (entries_in node.now)) place.high (spec_low_key (get_or (entries_in node.now) index d))) }
{
    if index >= node.entry_count() {
        return None;
    }
    Some(step_to(node, index, place, low_key(&node.entry(index))))
}
