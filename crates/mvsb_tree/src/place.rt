//! How a call comes to a node.
ghost use Rattle.std.specs.Prelude.{◌≡◌};
ghost use Rattle.std.specs.List.{list_all};
ghost use Rattle.mv_pages.specs.Alive.{or_later};
ghost use Rattle.mvsb_tree.specs.Damage.{IsInPlace, not_past, not_below, begins_within as spec_begins_within, root_place as spec_root_place};
ghost use Rattle.mvsb_tree.specs.Stands.{ends_after as spec_ends_after};

use mv_pages::{Reached, child_at, is_alive, said_on};
use page_layout::{MvEntry, MvNode, PlaceFor, View};

/// How a call that seeks a key at a version reaches a node: as the one for the keys from `low` on and,
/// where there is a `high`, before it.
#[derive(Clone, Copy)]
pub struct Place {
    pub low: u64,
    pub high: Option<u64>,
    pub key: u64,
    pub version: u32,
}

/// The place of the root for a key and a version.
pub fn root_place(key: u64, version: u32) -> Place
    ensures { result ≡ spec_root_place key version }
{
    Place {
        low: 0,
        high: None,
        key,
        version,
    }
}

fn ends_after(high: Option<u64>, low: u64) -> bool
    ensures { result ≡ spec_ends_after high low }
{
    match high {
        Some(high) => low < high,
        None => true,
    }
}

// Whether the entry is not alive at the version sought, or begins within the place.
fn begins_within(e: &MvEntry, place: Place) -> bool
    ensures { result ≡ spec_begins_within place e.now }
{
    !is_alive(e, place.version) | ((place.low <= e.low) & ends_after(place.high, e.low))
}

fn begin_within(entries: &[MvEntry], place: Place) -> bool
    ensures { result ≡ list_all (spec_begins_within place) entries.now }
{
    entries.iter().all(|e| begins_within(e, place))
}

/// Whether each entry of a node that is read in place is not alive at the version sought, or begins within
/// the place. Entries ascend, so the first one that is alive and the last one that is alive decide.
pub fn all_begin_within(view: &View<MvNode>, place: Place) -> bool
    ensures { result ≡ list_all (spec_begins_within place) view.now.entries.items }
{
    none_begins_below(view, place) && none_begins_past(view, place)
}

// Whether no entry that is alive begins below the place.
fn none_begins_below(view: &View<MvNode>, place: Place) -> bool
    ensures { result ≡ list_all (not_below place) view.now.entries.items }
{
    view.keeps_rules();
    for index in 0..view.len() {
        let e = view.entry(index);
        if is_alive(&e, place.version) {
            return place.low <= e.low;
        }
    }
    true
}

// Whether no entry that is alive begins past the place.
fn none_begins_past(view: &View<MvNode>, place: Place) -> bool
    ensures { result ≡ list_all (not_past place) view.now.entries.items }
{
    view.keeps_rules();
    let mut rest = view.len();
    while rest > 0 {
        rest -= 1;
        let e = view.entry(rest);
        if is_alive(&e, place.version) {
            return ends_after(place.high, e.low);
        }
    }
    true
}

/// The place of the child that a node in this place leads to.
pub fn inner_place(reached: Reached, place: Place) -> Place
    ensures low { result.low ≡ reached.low }
    ensures high { result.high ≡ or_later place.high reached.next }
    ensures key { result.key ≡ place.key }
    ensures version { result.version ≡ place.version }
{
    Place {
        low: reached.low,
        high: match reached.next {
            Some(next) => Some(next),
            None => place.high,
        },
        key: place.key,
        version: place.version,
    }
}

impl PlaceFor<MvNode> for Place {
    ghost admits = { IsInPlace };

    fn admits(&self, level: u8, node: &MvNode) -> bool {
        begin_within(node.entries.as_slice(), *self)
            && (level == 1 || child_at(node, self.key, self.version).is_some())
    }

    fn admits_view(&self, level: u8, view: &View<MvNode>) -> bool {
        all_begin_within(view, *self)
            && (level == 1 || said_on(view, self.key, self.version).reached.is_some())
    }
}
