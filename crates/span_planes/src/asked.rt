//! A row that asks for a sum over a span of versions.

use bw_types::Query;

/// A row that asks for the sum of the answers of all versions from the first to the last, both included. Where a version is not given it is
/// the last one: `now`.
#[derive(Clone, Copy, PartialEq, Eq, Debug)]
pub struct SpanRow {
    pub first: Option<u32>,
    pub last: Option<u32>,
    pub query: Query,
}
