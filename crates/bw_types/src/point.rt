/// A weighted point of a tree of one to three dimensions: it counts from its version on.
///
/// Keys past the tree's dimensions are 0. The weight is a residue modulo `2^128`.
#[derive(Clone, Copy, Debug, Default, PartialEq, Eq)]
pub struct Point {
    pub keys: [u64; 3],
    pub version: u32,
    pub weight: u128,
}
