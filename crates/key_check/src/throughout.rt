//! Whether the entries of a node stand at each version of a stretch.
ghost use Rattle.std.specs.Prelude.{◌≡◌, ◌<◌, ◌≤◌, ◌↔◌, Some, IsTrue, IfOk, OnOk};
ghost use Rattle.mv_pages.specs.Lows.{alive_lows, ascend, follows};
ghost use Rattle.mvsb_tree.specs.Stands.{ends_after, first_of};
ghost use Rattle.mvsb_tree.specs.Ways.{LowsCut};
ghost use Rattle.key_check.specs.Pieces.{StandsAt, StandsThroughout};

use crate::piece::Piece;
use mv_pages::is_alive;
use page_layout::MvEntry;
use std::alloc::AllocError;

/// Whether the alive lows cut the piece's interval at each of its versions. Between the versions at which an
/// entry starts or ends they stay the same, so only these are looked at. What `lows` held does not matter.
pub(crate) fn stands_throughout(
    lows: &mut Vec<u64>,
    entries: &[MvEntry],
    piece: Piece,
) -> Result<bool, AllocError>
    requires { piece.from < piece.to }
    ensures { IfOk result (λ stands. IsTrue stands ↔ StandsThroughout entries.now piece) }
{
    if !stands_at(lows, entries, piece, piece.from)? {
        return Ok(false);
    }
    for e in entries {
        if !stands_inside(lows, entries, piece, e.start)? {
            return Ok(false);
        }
        if !stands_inside(lows, entries, piece, e.end)? {
            return Ok(false);
        }
    }
    Ok(true)
}

// The same at one version, where that is one of the piece's.
fn stands_inside(
    lows: &mut Vec<u64>,
    entries: &[MvEntry],
    piece: Piece,
    version: u32,
) -> Result<bool, AllocError>
    ensures { IfOk result (λ stands. IsTrue stands ↔ (piece.from ≤ version → version < piece.to → StandsAt entries.now piece version)) }
{
    if version < piece.from || u64::from(version) >= piece.to {
        return Ok(true);
    }
    Ok(stands_at(lows, entries, piece, version)?)
}

// Whether the alive lows cut the piece's interval at the version.
fn stands_at(
    lows: &mut Vec<u64>,
    entries: &[MvEntry],
    piece: Piece,
    version: u32,
) -> Result<bool, AllocError>
    ensures { IfOk result (λ stands. IsTrue stands ↔ StandsAt entries.now piece version) }
{
    put_lows(lows, entries, version)?;
    Ok(do_cut(lows.as_slice(), piece))
}

// Makes the list the lows of the entries that are alive at the version.
fn put_lows(lows: &mut Vec<u64>, entries: &[MvEntry], version: u32) -> Result<(), AllocError>
    ensures { OnOk result (lows.new.items ≡ alive_lows entries.now version) }
{
    lows.clear();
    for e in entries {
        if is_alive(e, version) {
            lows.push(e.low)?;
        }
    }
    Ok(())
}

// Whether the lows cut the piece's interval.
fn do_cut(lows: &[u64], piece: Piece) -> bool
    ensures { IsTrue result ↔ LowsCut lows.now piece.low piece.high piece.least }
{
    do_ascend(lows)
        && begin_with(lows, piece.low)
        && lows.iter().all(|low| is_before(*low, piece.high))
        && piece.least <= lows.len()
}

// Whether each of the lows is above the one before it.
fn do_ascend(lows: &[u64]) -> bool
    ensures { result ≡ ascend lows.now }
{
    let mut last: Option<u64> = None;
    for low in lows {
        if !follows(last, *low) {
            return false;
        }
        last = Some(*low);
    }
    true
}

fn follows(last: Option<u64>, low: u64) -> bool
    ensures { result ≡ follows last low }
{
    match last {
        Some(last) => last < low,
        None => true,
    }
}

fn begin_with(lows: &[u64], low: u64) -> bool
    ensures { IsTrue result ↔ (first_of lows.now ≡ Some low) }
{
    match lows.first() {
        Some(first) => *first == low,
        None => false,
    }
}

fn is_before(low: u64, high: Option<u64>) -> bool
    ensures { result ≡ ends_after high low }
{
    match high {
        Some(high) => low < high,
        None => true,
    }
}
