//! The two forms of object tables.

/// A form of the pages of an object table.
#[derive(Clone, Copy, Debug, PartialEq, Eq)]
pub enum Form {
    /// By ids and lives: an id may live again.
    ByLives,
    /// By ids alone, the earlier form: each object has its first life.
    ByIds,
}
