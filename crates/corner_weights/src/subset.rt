//! Subsets of the dimensions, and their signs.
ghost use Rattle.std.specs.Prelude.{◌≡◌, ◌<◌, ◌≤◌};
ghost use Rattle.corner_weights.specs.Subsets.{is_in_subset as belongs, subset_size, counted_in_subset, residue_signed_by};

use bw_types::res_neg;

/// The residue with the sign of the subset: the opposite residue where an odd number of the three dimensions
/// belong to the subset, else the residue itself.
///
/// Bits of the subset past the third tell of no dimension, and are not counted.
pub fn sign(subset: u8, value: u128) -> u128
    ensures { result ≡ residue_signed_by subset value }
{
    if size(subset) % 2 == 1 {
        res_neg(value)
    } else {
        value
    }
}

/// Whether the dimension (0 to 2) belongs to the subset.
pub fn is_in_subset(dimension: u8, subset: u8) -> bool
    requires { dimension < 3 }
    ensures { result ≡ belongs dimension subset }
{
    (subset >> dimension) % 2 == 1
}

fn size(subset: u8) -> u8
    ensures size { result ≡ subset_size subset }
    ensures at_most { result ≤ 3 }
{
    count(0, subset) + count(1, subset) + count(2, subset)
}

fn count(dimension: u8, subset: u8) -> u8
    requires { dimension < 3 }
    ensures counted { result ≡ counted_in_subset dimension subset }
    ensures at_most { result ≤ 1 }
{
    if is_in_subset(dimension, subset) {
        1
    } else {
        0
    }
}
