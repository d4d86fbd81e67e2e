//! The corners of objects and of queries.
ghost use Rattle.std.specs.Prelude.{◌≡◌, ℕ, ◌-◌, ◌^◌, ◌<◌, ◌≤◌, not, nat_lt, if◌then◌else◌};
ghost use Rattle.bw_types.specs.Keys.{query_key as key_of_query};
ghost use Rattle.bw_types.specs.Tally.{each_below};
ghost use Rattle.corner_weights.specs.Corners.{object_corner as corner_of_object, meet_corner as corner_to_meet, integral_corner as corner_to_integrate, object_end, query_end, meet_bound, has_bound};

use crate::subset::is_in_subset;
use bw_types::{Object, Query, query_key};

/// The object's corner of the subset: the high end in the subset, the low end elsewhere.
///
/// The numbers are stored ones, of all three dimensions. Bits of the subset past the third tell of none.
pub fn object_corner(object: &Object, subset: u8) -> [u32; 3]
    ensures { result ≡ corner_of_object object.now subset }
{
    [
        object_end(object, subset, 0),
        object_end(object, subset, 1),
        object_end(object, subset, 2),
    ]
}

/// The keys of the query's corner of the subset by which meeting is counted: in the subset the query key of
/// one less than the low end, elsewhere that of the high end, and 0 past the dimensions.
///
/// It is `None` exactly where a low end in the subset is 0: nothing is strictly below it, so the subset's
/// term is 0. The dimensions are 1 to 3, and the subset is one of them.
pub fn meet_corner(query: &Query, dims: u8, subset: u8) -> Option<[u64; 3]>
    requires dims { (1 ≤ dims) × (dims ≤ 3) }
    requires subset { subset < 2 ^ dims }
    ensures { result ≡ corner_to_meet dims query.now subset }
{
    for i in 0..dims {
        if lacks_bound(query, subset, i) {
            return None;
        }
    }
    Some([
        key_within(dims, 0, meet_bound(query, subset, 0)),
        key_within(dims, 1, meet_bound(query, subset, 1)),
        key_within(dims, 2, meet_bound(query, subset, 2)),
    ])
}

/// The keys of the query's own corner of the subset, at which an integral is evaluated: in the subset the
/// query key of the low end, elsewhere that of the high end, and 0 past the dimensions.
///
/// The dimensions are 1 to 3, and the subset is one of them.
pub fn integral_corner(query: &Query, dims: u8, subset: u8) -> [u64; 3]
    requires dims { (1 ≤ dims) × (dims ≤ 3) }
    requires subset { subset < 2 ^ dims }
    ensures { result ≡ corner_to_integrate dims query.now subset }
{
    [
        key_within(dims, 0, query_end(query, subset, 0)),
        key_within(dims, 1, query_end(query, subset, 1)),
        key_within(dims, 2, query_end(query, subset, 2)),
    ]
}

fn object_end(object: &Object, subset: u8, i: u8) -> u32
    requires { i < 3 }
    ensures { result ≡ object_end object.now subset i }
{
    if is_in_subset(i, subset) {
        object.high[usize::from(i)]
    } else {
        object.low[usize::from(i)]
    }
}

fn lacks_bound(query: &Query, subset: u8, i: u8) -> bool
    requires { i < 3 }
    ensures { result ≡ not (has_bound query.now subset i) }
{
    is_in_subset(i, subset) && query.low[usize::from(i)] == 0
}

fn meet_bound(query: &Query, subset: u8, i: u8) -> u32
    requires { i < 3 }
    ensures { result ≡ meet_bound query.now subset i }
{
    if is_in_subset(i, subset) {
        query.low[usize::from(i)].saturating_sub(1)
    } else {
        query.high[usize::from(i)]
    }
}

fn query_end(query: &Query, subset: u8, i: u8) -> u32
    requires { i < 3 }
    ensures { result ≡ query_end query.now subset i }
{
    let at = usize::from(i);
    if is_in_subset(i, subset) {
        query.low[at]
    } else {
        query.high[at]
    }
}

fn key_within(dims: u8, i: u8, end: u32) -> u64
    ensures { result ≡ (if nat_lt i dims then key_of_query end else 0) }
{
    if i < dims { query_key(end) } else { 0 }
}
