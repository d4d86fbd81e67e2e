//! What a node says at a version, where it is read in place.
ghost use Rattle.std.specs.Prelude.{◌≡◌, ◌≤◌, ◌%◌, ◌^◌, ◌↔◌, ℕ, IsTrue, length, take};
ghost use Rattle.std.specs.List.{sum_by};
ghost use Rattle.sb_tree.specs.Cut.{IsCut};
ghost use Rattle.sb_tree.specs.Damage.{IsInPlace, low_from, next_from};
ghost use Rattle.sb_tree.specs.Steps.{child_at};

use crate::place::Place;
use page_layout::{SbNode, View};

/// The entries of a node that have begun at a version: how many they are, and the total of their
/// values modulo `2^128`.
#[derive(Clone, Copy)]
pub struct Begun {
    pub count: usize,
    pub total: u128,
}

/// The entries that begin at or below the version.
pub fn begun_on(view: &View<SbNode>, version: u32) -> Begun
    ensures cut { IsCut view.now.entries.items result.count version }
    ensures total { result.total ≡ sum_by (λ e. e.value) (take result.count view.now.entries.items) % 2 ^ 128 }
{
    view.keeps_rules();
    let count = view.len();
    let mut total: u128 = 0;
    for place in 0..count {
        let e = view.entry(place);
        if e.low > version {
            return Begun {
                count: place,
                total,
            };
        }
        total = total.wrapping_add(e.value);
    }
    Begun { count, total }
}

/// The child of the last of the first `begun` entries.
pub fn child_on(view: &View<SbNode>, begun: usize) -> u64
    requires { (1 ≤ begun) × (begun ≤ length view.now.entries.items) }
    ensures { (version : ℕ) → IsCut view.now.entries.items begun version → result ≡ child_at view.now.entries.items version }
{
    view.entry(begun - 1).child
}

/// The place of that child.
pub fn inner_place_on(view: &View<SbNode>, begun: usize, place: Place) -> Place
    requires { (1 ≤ begun) × IsCut view.now.entries.items begun place.sought }
    ensures low { result.low ≡ low_from place.low view.now.entries.items place.sought }
    ensures high { result.high ≡ next_from view.now.entries.items place.sought place.high }
    ensures sought { result.sought ≡ place.sought }
{
    let mut high = place.high;
    if begun < view.len() {
        high = u64::from(view.entry(begun).low);
    }
    Place {
        low: view.entry(begun - 1).low,
        high,
        sought: place.sought,
    }
}

/// Whether a node of this level keeps to the place. Its entries ascend, so the first and the last tell.
pub fn is_in_place(view: &View<SbNode>, level: u8, place: Place) -> bool
    ensures { IsTrue result ↔ IsInPlace level place view.now }
{
    view.keeps_rules();
    let first = view.entry(0).low;
    let last = view.entry(view.len() - 1).low;
    if first < place.low {
        return false;
    }
    if u64::from(last) >= place.high {
        return false;
    }
    level == 1 || first <= place.sought
}
