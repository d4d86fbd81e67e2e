//! How a walk reaches a node of a multiversion tree.

/// The page is to stand for the versions from one to before another, and for the keys of an interval, with at
/// least so many alive entries at each of the versions.
#[derive(Clone, Copy)]
pub(crate) struct Piece {
    pub page: u64,
    pub from: u32,
    pub to: u64,
    pub low: u64,
    pub high: Option<u64>,
    pub least: usize,
}
