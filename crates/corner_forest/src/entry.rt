//! What is entered into a forest.
use bw_types::Object;

/// An object that is entered, and what is told of its entry beside the version from which it counts: whether it takes
/// the object out, and the number of its event, below `2^28`.
#[derive(Clone, Copy)]
pub struct Entry {
    pub object: Object,
    pub minus: bool,
    pub event: u32,
}
