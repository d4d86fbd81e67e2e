ghost use Rattle.std.specs.Prelude.{◌≡◌, ◌≤◌, nat_le, ◌&&◌, slice_index};
ghost use Rattle.bw_types.specs.Meets.{meets};

use bw_types::{Object, Query};

/// Whether the object's box and the query's box meet: in each dimension neither lies wholly beyond
/// the other. Boxes that touch meet.
pub fn meets(dims: u8, query: &Query, object: &Object) -> bool
    requires { dims ≤ 3 }
    ensures { result ≡ meets dims query.now object.now }
{
    for i in 0..usize::from(dims) {
        if object.low[i] > query.high[i] || query.low[i] > object.high[i] {
            return false;
        }
    }
    true
}
