use crate::Object;

/// A row as a session stages it.
#[derive(Clone, Copy, PartialEq, Eq, Debug)]
pub enum Row {
    /// Add this object.
    Add(Object),
    /// Withdraw the live object with this id.
    Withdraw(u64),
    /// Withdraw the live object with this object's id, and add this object.
    Move(Object),
}
