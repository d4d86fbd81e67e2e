//! Whether the sum of corners is 0 everywhere.
ghost use Rattle.std.specs.Prelude.{◌↔◌, IsTrue};
ghost use Rattle.std.specs.List.Sorted.{IsNonDecreasingBy};
ghost use Rattle.key_check.specs.Sums.{Vanish, rank};

use crate::corner::{Corner, rank_of};

/// Whether the sum of the corners is 0 at each key and version. The corners are put into another order.
pub(crate) fn vanish(corners: &mut [Corner]) -> bool
    ensures { IsTrue result ↔ Vanish corners.old }
{
    corners.sort_unstable_by_key(|corner| rank_of(*corner));
    vanish_in_order(corners)
}

// Goes through the corners from the lowest version and key on. Up to each place the sum is that of one
// corner alone, the last place's, with the total of the weights there: the places before it came to 0.
fn vanish_in_order(corners: &[Corner]) -> bool
    requires { IsNonDecreasingBy rank corners.now }
    ensures { IsTrue result ↔ Vanish corners.now }
{
    let mut last = Corner::default();
    for corner in corners {
        let corner = *corner;
        if rank_of(corner) == rank_of(last) {
            last.weight = last.weight.wrapping_add(corner.weight);
        } else if last.weight != 0 {
            return false;
        } else {
            last = corner;
        }
    }
    last.weight == 0
}
