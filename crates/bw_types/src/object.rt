/// A box with a weight and, in a warehouse with a degree, a value function.
///
/// `low` and `high` are stored numbers (coordinate plus origin), both ends inclusive. With degree g
/// the first `(g + 1)^dims` coefficients are those of the value function, the exponent of the last
/// dimension running fastest. Ends past the dimensions and coefficients past those are 0.
#[derive(Clone, Copy, Debug, Default, PartialEq, Eq)]
pub struct Object {
    pub id: u64,
    pub low: [u32; 3],
    pub high: [u32; 3],
    pub weight: i64,
    pub coeffs: [i64; 27],
}
