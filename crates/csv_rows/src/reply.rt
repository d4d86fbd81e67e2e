// What a line of input is answered.

ghost use Rattle.std.specs.Prelude.{◌≡◌, Some};
ghost use Rattle.csv_rows.specs.Words.{kind_word as word_of_kind, reason_word as word_of_reason};

use bw_types::{Kind, Reason, Refusal};
use std::fmt;

/// The answer to one line. Its text ends with one line feed.
#[derive(Clone, Copy, PartialEq, Eq, Debug)]
pub enum Reply {
    /// The commit was accepted as this version.
    Version {
        version: u32,
    },
    /// The commit was refused.
    Refused {
        refusal: Refusal,
    },
    /// What the session had staged is forgotten.
    Dropped {
        session: u8,
    },
    /// The answer to a query at a version.
    Answer {
        kind: Kind,
        version: u32,
        value: i128,
    },
    /// The line with this number, counted from 1, is bad.
    Bad {
        line: u64,
    },
    /// The session of the line with this number has no room for a further row.
    Full {
        line: u64,
    },
    /// The line with this number asks a version above the last one.
    NoVersion {
        line: u64,
    },
}

/// The word of a query in rows and replies.
fn kind_word(kind: Kind) -> &'static str
    ensures { result.now ≡ word_of_kind kind }
{
    match kind {
        Kind::Sum => "sum",
        Kind::Count => "count",
        Kind::Integral => "integral",
    }
}

/// The word of a refusal in replies.
fn reason_word(reason: Reason) -> &'static str
    ensures { result.now ≡ word_of_reason reason }
{
    match reason {
        Reason::Used => "used",
        Reason::Unknown => "unknown",
        Reason::Fresh => "fresh",
        Reason::Gone => "gone",
        Reason::Mass => "mass",
        Reason::Events => "events",
    }
}

impl fmt::Display for Reply {
    ghost use Rattle.csv_rows.specs.Replies.{reply_text};

    ghost output = { λ reply. Some (reply_text reply) };

    fn fmt<W: fmt::Write>(&self, f: &mut fmt::Formatter<W>) -> fmt::Result {
        match *self {
            Reply::Version { version } => write!(f, "version,{version}\n"),
            Reply::Refused { refusal } => {
                let place = refusal.place;
                let reason = reason_word(refusal.reason);
                write!(f, "refused,{place},{reason}\n")
            }
            Reply::Dropped { session } => write!(f, "dropped,{session}\n"),
            Reply::Answer {
                kind,
                version,
                value,
            } => {
                let word = kind_word(kind);
                write!(f, "{word},{version},{value}\n")
            }
            Reply::Bad { line } => write!(f, "bad,{line}\n"),
            Reply::Full { line } => write!(f, "full,{line}\n"),
            Reply::NoVersion { line } => write!(f, "noversion,{line}\n"),
        }
    }
}
