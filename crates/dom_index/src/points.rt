//! The dominance sum of the points of a page.
ghost use Rattle.std.specs.Prelude.{◌≡◌, ◌≤◌};
ghost use Rattle.bw_types.specs.Dominance.{dominance_sum, keys_at_most};
ghost use Rattle.dom_index.specs.Sums.{counted_weight};
ghost use Rattle.std.specs.Prelude.{take};

use bw_types::Point;
use page_layout::{PointLeaf, View};

/// The sum of the weights of the page's points whose version and first `dims` keys are at or below those
/// given, modulo `2^128`. The page is read in place.
pub fn sum_on(view: &View<PointLeaf>, dims: u8, keys: &[u64; 3], version: u32) -> u128
    requires { dims ≤ 3 }
    ensures { result ≡ dominance_sum dims view.now.points.items keys.now version }
{
    let mut total: u128 = 0;
    for place in 0..view.len() {
        total = total.wrapping_add(counted(&view.point(place), dims, keys, version));
    }
    total
}

// What the point adds to the sum.
fn counted(point: &Point, dims: u8, keys: &[u64; 3], version: u32) -> u128
    requires { dims ≤ 3 }
    ensures { result ≡ counted_weight dims keys.now version point.now }
{
    if point.version <= version && are_at_most(&point.keys, keys, dims) {
        point.weight
    } else {
        0
    }
}

fn are_at_most(keys: &[u64; 3], bounds: &[u64; 3], dims: u8) -> bool
    requires { dims ≤ 3 }
    ensures { result ≡ keys_at_most (take dims keys.now) (take dims bounds.now) }
{
    (dims < 1 || keys[0] <= bounds[0])
        && (dims < 2 || keys[1] <= bounds[1])
        && (dims < 3 || keys[2] <= bounds[2])
}
