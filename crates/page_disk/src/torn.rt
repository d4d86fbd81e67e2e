//! What a crash does with the writes that are pending.

/// What a crash does with the writes since the last sync that succeeded.
#[derive(Clone, Copy, Debug, PartialEq, Eq)]
pub enum Torn {
    /// All are gone, and the length is the synced one.
    Lost,
    /// All are there.
    Landed,
    /// Each page written is full of this byte, and the length is the greatest.
    Filled(u8),
}
