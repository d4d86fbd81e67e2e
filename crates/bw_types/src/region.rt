/// A box of keys: in each dimension those from `low` to before `high`.
#[derive(Clone, Copy, Debug, Default, PartialEq, Eq)]
pub struct Region {
    pub low: [u64; 3],
    pub high: [u64; 3],
}
