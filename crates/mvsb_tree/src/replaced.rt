//! What took the part of a page that was closed.

/// The pages that take the part of one from a version on: `first` for all its keys or, where there is a
/// `second`, for those below its key; the second page has the keys from there on. The first page may be
/// the same one.
#[derive(Clone, Copy)]
pub struct Replaced {
    pub first: u64,
    pub second: Option<(u64, u64)>,
}
