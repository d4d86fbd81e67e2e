use bw_types::Object;

/// An add or a withdrawal of a history.
#[derive(Clone, Copy, PartialEq, Eq, Debug)]
pub struct Event {
    /// The event number: how many adds and withdrawals come before it.
    pub event: u32,
    /// The version that it made, from 1 on.
    pub version: u32,
    /// Whether the object was added. Else it was withdrawn.
    pub add: bool,
    /// The object that was added. A withdrawal has the object that it ends.
    pub object: Object,
}
