ghost use Rattle.std.specs.Prelude.{◌≡◌, ◌≤◌, ◌<◌, ℕ, ℤ, [], None, IsSome, IfSome, pos, ◌-ℤ◌, slice_index};
ghost use Rattle.std.specs.Int.{int_pow};
ghost use Rattle.std.specs.List.{slice_index_or};
ghost use Rattle.bw_types.specs.Fits.{coordinate};
ghost use Rattle.bw_types.specs.Residues.{residue};
ghost use Rattle.bw_types.specs.declared.object.Object.{Object};
ghost use Rattle.bw_types.specs.declared.params.Params.{Params};
ghost use Rattle.corner_weights.specs.Corners.{object_corner};
ghost use Rattle.corner_weights.specs.Planes.{coefficient, primitive};
ghost use Rattle.corner_weights.specs.Powers.{ArePowersOf, ArePrimitives};

use crate::is_in_subset;
use bw_types::{Object, Params, res_mul, res_neg, res_of};

/// A power modulo `2^128` of the coordinate that is stored as a number.
pub fn power(number: u32, origin: u32, e: u32) -> u128
    requires { e ≤ 3 }
    ensures { result ≡ residue (int_pow (pos number -ℤ pos origin) e) }
{
    res_of(coordinate(number, origin).pow(e))
}

fn coordinate(number: u32, origin: u32) -> i128
    ensures { result ≡ pos number -ℤ pos origin }
{
    i128::from(number) - i128::from(origin)
}

/// For each exponent `e` from 0 to 2 the residue modulo `2^128` of `6/(e+1) * c^(e+1)`, `c` being the coordinate
/// that is stored as a number.
fn primitives(number: u32, origin: u32) -> [u128; 3]
    ensures { ArePrimitives (pos number -ℤ pos origin) result }
{
    [
        res_mul(6, power(number, origin, 1)),
        res_mul(3, power(number, origin, 2)),
        res_mul(2, power(number, origin, 3)),
    ]
}

/// What the ends of an object's box give to the weights of its corners: at the low and at the high end of each of the
/// three dimensions, for each exponent `e` from 0 to 2 the residue modulo `2^128` of `6/(e+1) * c^(e+1)`, `c` being
/// the coordinate of the end.
#[derive(Clone, Copy)]
pub struct BoxPowers {
    pub low: [[u128; 3]; 3],
    pub high: [[u128; 3]; 3],
}

/// The powers of the ends of the object's box, each computed once. Without a degree they are not needed, and are zeros.
pub fn box_powers(object: &Object, params: &Params) -> BoxPowers
    ensures { IsSome params.now.degree → ArePowersOf params.now object.now result }
{
    if params.degree.is_none() {
        return BoxPowers {
            low: [[0; 3]; 3],
            high: [[0; 3]; 3],
        };
    }
    BoxPowers {
        low: end_powers(&object.low, params.origin),
        high: end_powers(&object.high, params.origin),
    }
}

fn end_powers(ends: &[u32; 3], origin: u32) -> [[u128; 3]; 3]
    ensures { (i : ℕ) → i < 3 → ArePrimitives (pos (slice_index ends.now i) -ℤ pos origin) (slice_index_or result i []) }
{
    [
        primitives(ends[0], origin),
        primitives(ends[1], origin),
        primitives(ends[2], origin),
    ]
}

/// Of these powers the one for exponent `e` at the corner of the subset in dimension `i`.
pub(crate) fn power_at(powers: &BoxPowers, subset: u8, i: usize, e: usize) -> u128
    requires dimension { i < 3 }
    requires exponent { e ≤ 2 }
    ensures { (params : Params) (o : Object) → ArePowersOf params o powers.now
        → result ≡ residue (primitive e (coordinate params (slice_index (object_corner o subset) i))) }
{
    if is_in_subset(i as u8, subset) {
        powers.high[i][e]
    } else {
        powers.low[i][e]
    }
}

/// The coefficient modulo `2^128` of `x^f` in the polynomial `(6/(e+1)) * (x^(e+1) - c^(e+1))`, where it is not 0
/// whatever `c` is; `at_corner` is `6/(e+1) * c^(e+1)`.
pub(crate) fn factor(e: u32, f: u32, at_corner: u128) -> Option<u128>
    requires { e ≤ 2 }
    ensures some { (c : ℤ) → at_corner ≡ residue (primitive e c) → IfSome result (λ factor. factor ≡ residue (coefficient e f c)) }
    ensures none { result ≡ None → (c : ℤ) → coefficient e f c ≡ pos 0 }
{
    if f == 0 {
        return Some(res_neg(at_corner));
    }
    if f == e + 1 {
        return Some(u128::from(6 / (e + 1)));
    }
    None
}
