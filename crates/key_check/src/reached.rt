//! How a walk reaches a node.

/// The page is to stand for the versions from `low` to before `high`, with at least so many entries. The
/// values of the entries above it that hold there come to `before`.
#[derive(Clone, Copy)]
pub(crate) struct Reached {
    pub(crate) page: u64,
    pub(crate) low: u64,
    pub(crate) high: u64,
    pub(crate) least: usize,
    pub(crate) before: u128,
}
