//! The lives of entries within a piece.
ghost use Rattle.std.specs.Prelude.{◌≡◌, ℕ, ◌^◌, ◌<◌, ◌≤◌, false};
ghost use Rattle.mv_pages.specs.Alive.{is_alive};
ghost use Rattle.key_check.specs.Cells.{end_of, life_in, next_low};
ghost use Rattle.key_check.specs.Runs.{life_until};

use crate::piece::Piece;
use mv_pages::is_alive;
use page_layout::MvEntry;

// The end of an entry that is not closed.
const OPEN: u32 = 4294967295;

// All versions are before this one.
pub(crate) const END: u64 = 0x1_0000_0000;

// At least so many entries of a node that is no root are alive.
const LEAST: usize = 24;

/// The child of an entry, as long as the entry lives within the piece.
pub(crate) fn life_in(piece: Piece, e: &MvEntry) -> Piece
    ensures { result ≡ life_in piece e.now }
{
    life_until(piece, e, end_of(e))
}

/// The same from the entry's start to before an end.
pub(crate) fn life_until(piece: Piece, e: &MvEntry, end: u64) -> Piece
    ensures { result ≡ life_until piece e.now end }
{
    Piece {
        page: e.child,
        from: piece.from.max(e.start),
        to: piece.to.min(end),
        low: e.low,
        high: piece.high,
        least: LEAST,
    }
}

/// Where the life of an entry ends.
pub(crate) fn end_of(e: &MvEntry) -> u64
    ensures { result ≡ end_of e.now }
{
    if e.end == OPEN { END } else { u64::from(e.end) }
}

/// Where keys end, from a version on until before another.
#[derive(Clone, Copy)]
pub(crate) struct Next {
    pub(crate) high: Option<u64>,
    pub(crate) until: u64,
}

/// Where the keys end at a version that lead to an entry with these behind it, and until before which version, `to` at most,
/// they do so. It goes on where another entry takes the place of the next one from the same low on, as most do.
pub(crate) fn next_of(rest: &[MvEntry], high: Option<u64>, version: u32, to: u64) -> Next
    requires versions { (version < to) × (to ≤ 2 ^ 32) }
    ensures until { (version < result.until) × (result.until ≤ to) }
    ensures same { (later : ℕ) → version ≤ later → later < result.until → next_low high rest.now later ≡ result.high }
{
    let mut next = next_at(rest, high, version, to);
    while next.until < to {
        let after = next_at(rest, high, next.until as u32, to);
        if after.high != next.high {
            return next;
        }
        next = after;
    }
    next
}

// The same as long as the next entry lives, or until one comes.
fn next_at(rest: &[MvEntry], high: Option<u64>, version: u32, to: u64) -> Next
    requires { version < to }
    ensures until { (version < result.until) × (result.until ≤ to) }
    ensures same { (later : ℕ) → version ≤ later → later < result.until → next_low high rest.now later ≡ result.high }
{
    let mut until = to;
    for e in rest {
        if is_alive(e, version) {
            return Next {
                high: Some(e.low),
                until: until.min(end_of(e)),
            };
        }
        until = start_after(e, version, until);
    }
    Next { high, until }
}

// Until before which version, `to` at most, an entry stays dead that is so at a version.
fn start_after(e: &MvEntry, version: u32, to: u64) -> u64
    requires after { version < to }
    requires dead { is_alive version e.now ≡ false }
    ensures until { (version < result) × (result ≤ to) }
    ensures dead { (later : ℕ) → version ≤ later → later < result → is_alive later e.now ≡ false }
{
    if e.start > version {
        to.min(u64::from(e.start))
    } else {
        to
    }
}
