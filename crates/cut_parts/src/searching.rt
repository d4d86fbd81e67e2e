//! The entry of a page of cuts whose region holds some keys, and the region of an entry.
ghost use Rattle.std.specs.Prelude.{◌≡◌, ◌+◌, ◌/◌, ◌<◌, ◌≤◌, ◌∷◌, [], ℕ, suc, length, IsTrue};
ghost use Rattle.std.specs.List.{All};
ghost use Rattle.bw_types.specs.Regions.{Holds};
ghost use Rattle.bw_types.specs.Regions as regions;
ghost use Rattle.page_layout.specs.CutPage.{entry_count, node_fits, open_places};
ghost use Rattle.cut_parts.specs.Nodes.{AreNodes};
ghost use Rattle.cut_parts.specs.PageRegions.{HasRegion, IsOnlyFor, LieInside, entry_regions};

use crate::parts::split_part;
use bw_types::Region;
use page_layout::{CutNode, CutPage};

/// The entry whose region holds the keys, by its place among the entries, and that region. The whole page has the region that is
/// given.
pub fn find(page: &CutPage, region: &Region, keys: &[u64; 3]) -> (usize, Region)
    requires { AreNodes page.now.nodes.items }
    ensures entry { HasRegion (entry_regions (region.now ∷ []) page.now.nodes.items) result.0 result.1 }
    ensures holds { Holds 3 region.now keys.now → Holds 3 result.1 keys.now }
    // Where each cut lies inside its region, it is the only one.
    ensures only { LieInside (region.now ∷ []) page.now.nodes.items
        → IsOnlyFor keys.now (entry_regions (region.now ∷ []) page.now.nodes.items) result.0 }
{
    find_in(page.nodes.as_slice(), region, keys)
}

// The same among the entries of the first part of some nodes.
fn find_in(nodes: &[CutNode], region: &Region, keys: &[u64; 3]) -> (usize, Region)
    requires whole { (places : ℕ) × IsTrue (open_places (suc places) nodes.now) }
    requires fit { All (λ node. IsTrue (node_fits node)) nodes.now }
    ensures entry { HasRegion (entry_regions (region.now ∷ []) nodes.now) result.0 result.1 }
    ensures holds { Holds 3 region.now keys.now → Holds 3 result.1 keys.now }
    ensures only { LieInside (region.now ∷ []) nodes.now → IsOnlyFor keys.now (entry_regions (region.now ∷ []) nodes.now) result.0 }
    ensures few { result.0 ≤ length nodes.now }
{
    let Some((first, rest)) = nodes.split_first() else {
        return (0, *region);
    };
    match first {
        CutNode::Entry { child: _ } => (0, *region),
        CutNode::Cut {
            dimension,
            key,
            low: _,
            border: _,
        } => {
            has_three_keys(region);
            if keys[usize::from(*dimension)] < *key {
                return find_in(rest, &below_cut(region, *dimension, *key), keys);
            }
            let (low, high) = split_part(rest);
            let (place, found) = find_in(high, &above_cut(region, *dimension, *key), keys);
            (entries_of(low) + place, found)
        }
    }
}

/// The region of the entry at a place among the entries.
pub fn region_of(page: &CutPage, region: &Region, index: usize) -> Region
    requires nodes { AreNodes page.now.nodes.items }
    requires within { index < entry_count page.now.nodes.items }
    ensures { HasRegion (entry_regions (region.now ∷ []) page.now.nodes.items) index result }
{
    region_in(page.nodes.as_slice(), region, index)
}

// The same among the entries of the first part of some nodes.
fn region_in(nodes: &[CutNode], region: &Region, index: usize) -> Region
    requires whole { (places : ℕ) × IsTrue (open_places (suc places) nodes.now) }
    requires fit { All (λ node. IsTrue (node_fits node)) nodes.now }
    requires within { index < length (entry_regions (region.now ∷ []) nodes.now) }
    ensures { HasRegion (entry_regions (region.now ∷ []) nodes.now) index result }
{
    let Some((first, rest)) = nodes.split_first() else {
        return *region;
    };
    match first {
        CutNode::Entry { child: _ } => *region,
        CutNode::Cut {
            dimension,
            key,
            low: _,
            border: _,
        } => {
            let (low, high) = split_part(rest);
            let before = entries_of(low);
            if index < before {
                return region_in(rest, &below_cut(region, *dimension, *key), index);
            }
            region_in(high, &above_cut(region, *dimension, *key), index - before)
        }
    }
}

// How many entries a part has: one more than cuts.
fn entries_of(part: &[CutNode]) -> usize
    ensures { result ≡ length part.now / 2 + 1 }
{
    part.len() / 2 + 1
}

// Proves that a region has three keys on either side; it does nothing when it runs.
fn has_three_keys(region: &Region)
    ensures low { length region.now.low ≡ 3 }
    ensures high { length region.now.high ≡ 3 }
{
    let [_first, _second, _third] = region.low;
    let [_first, _second, _third] = region.high;
}

// The part of a region whose keys of the dimension are below the key.
fn below_cut(region: &Region, dimension: u8, key: u64) -> Region
    requires { dimension < 3 }
    ensures { result ≡ regions.below_cut region.now dimension key }
{
    let mut part = *region;
    part.high[usize::from(dimension)] = key;
    part
}

// The part whose keys of the dimension are from the key on.
fn above_cut(region: &Region, dimension: u8, key: u64) -> Region
    requires { dimension < 3 }
    ensures { result ≡ regions.above_cut region.now dimension key }
{
    let mut part = *region;
    part.low[usize::from(dimension)] = key;
    part
}
