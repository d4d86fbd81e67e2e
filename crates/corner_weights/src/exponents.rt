ghost use Rattle.std.specs.Prelude.{◌≡◌, ◌+◌, ◌<◌, ◌≤◌, ◌^◌, [], slice_index};
ghost use Rattle.std.specs.List.{slice_index_or};
ghost use Rattle.bw_types.specs.Integral.{exponent_lists};

/// The exponent of dimension `i` (from 0) that belongs to coefficient `k` (from 0) of a polynomial
/// of this degree in each dimension: the exponents are the digits of `k` in base `degree + 1`, that
/// of the last dimension being the last digit.
pub fn exponent(k: usize, i: usize, dims: usize, degree: usize) -> usize
    requires some_dims { 1 ≤ dims }
    requires dims { dims ≤ 3 }
    requires degree { degree ≤ 3 }
    requires coefficient { k < (degree + 1) ^ dims }
    requires dimension { i < dims }
    ensures digit { result ≡ slice_index (slice_index_or (exponent_lists dims degree) k []) i }
    ensures at_most { result ≤ degree }
{
    let base = degree + 1;
    k / base.pow((dims - 1 - i) as u32) % base
}
