//! What one moment did to an area.
use ports::Page;

/// What one moment did to an area, with what is needed to undo it.
#[derive(Drop)]
pub(crate) enum Entry {
    /// Nothing: the moment was the other area's.
    Still,
    /// A sync that succeeded.
    Synced,
    /// A page more at the end.
    Appended,
    /// This page was written over, which held these bytes.
    Overwrote(u64, Box<Page>),
}
