ghost use Rattle.std.specs.Prelude.{◌≡◌, ◌-◌, ◌^◌, ◌<◌, [], Some, None, IsTrue, nat_lt, min, if◌then◌else◌};
ghost use Rattle.std.specs.List.{slice_index_or};
ghost use Rattle.bw_types.specs.Fits.{IsInRange, object_fits, coefficient_count};
ghost use Rattle.bw_types.specs.Integral.{exponent_lists};
ghost use Rattle.bw_types.specs.Mass.{mass, mass_of_degree, box_reach, mass_limit};

use crate::exponents::exponent;
use crate::reaches::reach;
use bw_types::{Object, Params, coefficient_count};

/// The mass of the object, or `None` where it reaches `2^126`. Without a degree it is 0.
pub fn mass(object: &Object, params: &Params) -> Option<u128>
    requires in_range { IsInRange params.now }
    requires fits { IsTrue (object_fits params.now object.now) }
    ensures { result ≡ (if nat_lt (mass params.now object.now) mass_limit then Some (mass params.now object.now) else None) }
{
    let Some(degree) = params.degree else {
        return Some(0);
    };
    let total = capped_mass(object, params, degree);
    if total < Params::MASS_LIMIT {
        Some(total)
    } else {
        None
    }
}

// The mass, or `u128::MAX` where it is greater.
fn capped_mass(object: &Object, params: &Params, degree: u8) -> u128
    requires in_range { IsInRange params.now }
    requires degree { params.now.degree ≡ Some degree }
    ensures { result ≡ min (mass_of_degree params.now object.now degree) (2 ^ 128 - 1) }
{
    let mut total: u128 = 0;
    for k in 0..coefficient_count(params) {
        let size = u128::from(object.coeffs[k].unsigned_abs());
        total = total.saturating_add(size.saturating_mul(capped_reach(object, params, degree, k)));
    }
    total
}

// The reach of the object's box at the exponents of coefficient `k`, or `u128::MAX` where it is greater.
fn capped_reach(object: &Object, params: &Params, degree: u8, k: usize) -> u128
    requires in_range { IsInRange params.now }
    requires degree { params.now.degree ≡ Some degree }
    requires coefficient { k < coefficient_count params.now }
    ensures { result ≡ min (box_reach params.now object.now (slice_index_or (exponent_lists params.now.dims degree) k [])) (2 ^ 128 - 1) }
{
    let dims = usize::from(params.dims);
    let mut product: u128 = 1;
    for i in 0..dims {
        let e = exponent(k, i, dims, usize::from(degree)) as u32;
        product = product.saturating_mul(reach(e, object.low[i], object.high[i], params.origin));
    }
    product
}
