//! What the words of the command line ask for.

use bw_types::Params;

/// A command with its values.
#[derive(Clone, Copy, PartialEq, Eq, Debug)]
pub enum Command {
    /// Make an empty warehouse on the disk.
    Create(Params),
    /// Open the warehouse on the disk, and answer rows.
    Run,
    /// Answer rows over a plain list in memory, from the empty history on.
    Scratch(Params),
    /// Make a warehouse on the disk and load generated rows.
    Sample { start: u64, count: u32 },
    /// Read the whole image and tell whether it holds a history.
    Check,
    /// Make the index of sums over spans of versions.
    Spans,
    /// Answer rows from the index of spans.
    SpanRun,
    /// Answer rows that ask for grids.
    Report,
    /// Print the history as rows.
    Export,
    /// Make a second warehouse without the versions below this one.
    Compact { version: u32 },
}
