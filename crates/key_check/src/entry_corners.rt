//! The corners by which the entries of a node add their values within a piece.
ghost use Rattle.std.specs.Prelude.{◌≡◌, ◌<◌, ◌≤◌, ◌^◌, None, IsTrue, OnOk};
ghost use Rattle.mvsb_tree.specs.Stands.{ends_after};
ghost use Rattle.key_check.specs.Cells.{Adds, entries_total, weight_within};
ghost use Rattle.key_check.specs.Pieces.{StandsThroughout};

use crate::corner::Corner;
use crate::life::{END, life_in};
use crate::piece::Piece;
use page_layout::MvEntry;
use std::alloc::AllocError;

/// Puts corners behind the others whose sum is the value of the entries within the piece, and 0 outside it.
pub(crate) fn push_entries(
    corners: &mut Vec<Corner>,
    entries: &[MvEntry],
    piece: Piece,
) -> Result<(), AllocError>
    requires stands { StandsThroughout entries.now piece }
    requires versions { piece.to ≤ 2 ^ 32 }
    ensures { OnOk result (Adds (entries_total piece entries.now) corners.old.items corners.new.items) }
{
    for e in entries {
        push_weight(corners, life_in(piece, e), e.value)?;
    }
    Ok(())
}

// The same for a weight that counts within a piece, which may have no versions.
fn push_weight(corners: &mut Vec<Corner>, life: Piece, weight: u128) -> Result<(), AllocError>
    requires { life.from < life.to → IsTrue (ends_after life.high life.low) }
    ensures { OnOk result (Adds (weight_within life.from life.to life.low life.high weight) corners.old.items corners.new.items) }
{
    if u64::from(life.from) >= life.to {
        return Ok(());
    }
    push_column(corners, life.from, life.to, life.low, weight)?;
    if let Some(high) = life.high {
        push_column(corners, life.from, life.to, high, weight.wrapping_neg())?;
    }
    Ok(())
}

// The same for all keys from one on.
fn push_column(
    corners: &mut Vec<Corner>,
    from: u32,
    to: u64,
    low: u64,
    weight: u128,
) -> Result<(), AllocError>
    requires { from < to }
    ensures { OnOk result (Adds (weight_within from to low None weight) corners.old.items corners.new.items) }
{
    corners.push(Corner {
        version: from,
        key: low,
        weight,
    })?;
    if to >= END {
        return Ok(());
    }
    corners.push(Corner {
        version: to as u32,
        key: low,
        weight: weight.wrapping_neg(),
    })?;
    Ok(())
}
