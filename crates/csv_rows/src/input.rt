// What a line of input may ask, once it is read.

use bw_types::{Query, Row};

/// A line of input that is not bad.
#[derive(Clone, Copy, PartialEq, Eq, Debug)]
pub enum Input {
    /// Stage the row in the session, 1 to 16: `add`, `withdraw` and `move`.
    Stage { session: u8, row: Row },
    /// Commit what the session, 1 to 16, has staged.
    Commit { session: u8 },
    /// Drop what the session, 1 to 16, has staged: `drop`.
    Drop { session: u8 },
    /// Answer the query at the version, or at the last one where none is given: `now`.
    Ask { version: Option<u32>, query: Query },
}
