//! The versions and keys of points, and whether the entries of a node keep to them.
ghost use Rattle.std.specs.Prelude.{◌≡◌, ◌==◌, ◌||◌, ◌&&◌, ◌↔◌, ℕ, List, IsTrue, IfOk, map, nat_le};
ghost use Rattle.std.specs.List.{list_any};
ghost use Rattle.std.specs.List.Sorted.{IsNonDecreasing, IsPermutation};
ghost use Rattle.bw_types.specs.declared.point.Point.{Point};
ghost use Rattle.mvsb_tree.specs.Stands.{key_of};
ghost use Rattle.key_check.specs.Marks.{AreInOrder, AreMarksOf, EntriesKept};

use crate::numbers::versions_in_order;
use bw_types::Point;
use page_layout::MvEntry;
use std::alloc::{AllocError, Global};

// The end of an entry that is not closed.
const OPEN: u32 = 4294967295;

/// The versions and the first keys of points, each in order.
#[derive(Drop)]
pub(crate) struct Marks {
    pub(crate) versions: Vec<u32>,
    pub(crate) keys: Vec<u64>,
}

/// The marks of the points.
pub(crate) fn marks_of(alloc: Global, points: &[Point]) -> Result<Marks, AllocError>
    ensures order { IfOk result (λ marks. AreInOrder marks) }
    ensures same { IfOk result (λ marks. AreMarksOf points.now marks) }
{
    let versions = versions_in_order(alloc, points)?;
    let keys = keys_in_order(alloc, points)?;
    Ok(Marks { versions, keys })
}

// The first keys of the points, in order.
fn keys_in_order(alloc: Global, points: &[Point]) -> Result<Vec<u64>, AllocError>
    ensures order { IfOk result (λ keys. IsNonDecreasing keys.items) }
    ensures same { IfOk result (λ keys. IsPermutation (map key_of points.now) keys.items) }
{
    let mut keys: Vec<u64> = points.iter().map(|point| point.keys[0]).collect(alloc)?;
    keys.sort_unstable();
    Ok(keys)
}

/// Whether each entry starts and ends no later than the last point, and in a leaf begins at 0 or at the key of
/// a point.
pub(crate) fn entries_keep(marks: &Marks, level: u8, entries: &[MvEntry]) -> bool
    requires { AreInOrder marks.now }
    ensures { (points : List Point) → AreMarksOf points marks.now → IsTrue result ↔ EntriesKept points level entries.now }
{
    for e in entries {
        if !is_past(marks.versions.as_slice(), e) {
            return false;
        }
        if level == 1 && !is_key_mark(marks.keys.as_slice(), e.low) {
            return false;
        }
    }
    true
}

// Whether the entry starts at or before the last of the versions, and if it is closed, ends there or before.
fn is_past(versions: &[u32], e: &MvEntry) -> bool
    requires { IsNonDecreasing versions.now }
    ensures { result ≡ (list_any (λ v. nat_le e.now.start v) versions.now && (e.now.end == 4294967295 || list_any (λ v. nat_le e.now.end v) versions.now)) }
{
    have_come(versions, e.start) && (e.end == OPEN || have_come(versions, e.end))
}

// Whether one of the versions is this one or later.
fn have_come(versions: &[u32], version: u32) -> bool
    requires { IsNonDecreasing versions.now }
    ensures { result ≡ list_any (λ v. nat_le version v) versions.now }
{
    match versions.last() {
        Some(last) => version <= *last,
        None => false,
    }
}

// Whether the key is 0 or among the keys.
fn is_key_mark(keys: &[u64], key: u64) -> bool
    requires { IsNonDecreasing keys.now }
    ensures { result ≡ (key == 0 || list_any (λ k. k == key) keys.now) }
{
    key == 0 || is_among(keys, key)
}

fn is_among(keys: &[u64], key: u64) -> bool
    requires { IsNonDecreasing keys.now }
    ensures { result ≡ list_any (λ k. k == key) keys.now }
{
    keys.binary_search(&key).is_ok()
}
