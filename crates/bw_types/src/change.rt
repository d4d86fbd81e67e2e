use crate::Object;

/// What a history consists of: a row without moves.
#[derive(Clone, Copy, PartialEq, Eq, Debug)]
pub enum Change {
    /// This object was added.
    Add(Object),
    /// The live object with this id was withdrawn.
    Withdraw(u64),
}
