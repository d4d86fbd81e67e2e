//! Steps.

/// From this version on, up to the next step, the value of a tree over versions is this.
#[derive(Clone, Copy, Debug, Default, PartialEq, Eq)]
pub(crate) struct Step {
    pub version: u32,
    pub value: u128,
}
