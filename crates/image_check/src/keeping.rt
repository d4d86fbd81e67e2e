//! What a node of a table keeps to in its place.
ghost use Rattle.std.specs.Prelude.{◌≡◌, ◌<◌, ◌+◌, ◌↔◌, length, drop, IsTrue};
ghost use Rattle.object_table.specs.Stands.{KeepsItsLow, first_low, fewest as spec_fewest};
ghost use Rattle.image_check.specs.Keeping.{LeafKeeps, IndexKeeps};

use crate::key::{key, low_key};
use bw_types::Dated;
use object_table::Form;
use page_layout::LifeEntry;

/// Whether the objects of a leaf are at least so many, with keys from `low` to before `high`.
pub fn leaf_keeps(objects: &[Dated], low: u128, high: u128, least: usize) -> bool
    ensures { IsTrue result ↔ LeafKeeps objects.now low high least }
{
    objects.len() >= least
        && objects.iter().all(|dated| low <= key(dated))
        && objects.iter().all(|dated| key(dated) < high)
}

/// Whether the entries of an index node are at least so many, which begin with `low` and all below `high`.
pub fn index_keeps(entries: &[LifeEntry], low: u128, high: u128, least: usize) -> bool
    ensures { IsTrue result ↔ IndexKeeps entries.now low high least }
{
    entries.len() >= least
        && begin_of(entries, high) == low
        && entries.iter().all(|entry| low_key(entry) < high)
}

/// Where the first of the entries begins, or `high` where there is none.
pub fn begin_of(entries: &[LifeEntry], high: u128) -> u128
    ensures { result ≡ first_low entries.now high }
{
    match entries.first() {
        Some(first) => low_key(first),
        None => high,
    }
}

/// Whether the objects under the entry begin with its low, where that has a life.
pub fn keeps_its_low(entry: &LifeEntry, objects: &[Dated]) -> bool
    ensures { IsTrue result ↔ KeepsItsLow entry.now objects.now }
{
    if entry.low_life == 0 {
        return true;
    }
    match objects.first() {
        Some(first) => key(first) == low_key(entry),
        None => false,
    }
}

/// The objects from this place on; none where there are not so many.
pub fn from_place(objects: &[Dated], place: usize) -> &[Dated]
    ensures { result.now ≡ drop place objects.now }
{
    match objects.get(place..) {
        Some(rest) => rest,
        None => &[],
    }
}

/// The fewest objects or entries of a node of this level below the root.
pub fn fewest(form: Form, level: u8) -> usize
    ensures { result ≡ spec_fewest form level }
{
    match level {
        0 => 0,
        1 => fewest_objects(form),
        _ => 100,
    }
}

// The fewest objects of a leaf below the root.
fn fewest_objects(form: Form) -> usize
    ensures { result ≡ spec_fewest form 1 }
{
    match form {
        Form::ByLives => 7,
        Form::ByIds => 8,
    }
}
