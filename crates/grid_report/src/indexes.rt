//! The elements of a grid: how many there are, and their indexes, from their numbers.
ghost use Rattle.std.specs.Prelude.{◌≡◌, ◌<◌, ◌≤◌, slice_index, take};
ghost use Rattle.bw_types.specs.Tally.{product_below};
ghost use Rattle.grid_report.specs.Indexes.{indexes_of};

/// The indexes of the element with a number, where there are so many in each dimension and that of the last runs fastest.
pub(crate) fn indexes(dims: u8, sizes: &[u32; 3], number: u64) -> [u32; 3]
    requires dims { dims ≤ 3 }
    requires number { number < product_below dims (λ i. slice_index sizes.now i) }
    ensures { take dims result ≡ indexes_of dims (λ i. slice_index sizes.now i) number }
{
    let mut at = [0; 3];
    let mut rest = number;
    for i in (0..usize::from(dims)).rev() {
        let size = u64::from(sizes[i]);
        at[i] = (rest % size) as u32;
        rest /= size;
    }
    at
}

/// How many elements there are, where there are so many in each dimension.
pub(crate) fn element_count(dims: u8, sizes: &[u32; 3]) -> u128
    requires { dims ≤ 3 }
    ensures { result ≡ product_below dims (λ i. slice_index sizes.now i) }
{
    let mut count = 1u128;
    for i in 0..usize::from(dims) {
        count *= u128::from(sizes[i]);
    }
    count
}
