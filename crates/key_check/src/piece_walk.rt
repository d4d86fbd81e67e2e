//! The walk over the nodes of a multiversion tree, level by level, each in the pieces of versions and keys in which it is reached.
ghost use Rattle.std.specs.Global.{Vec};
ghost use Rattle.std.specs.Prelude.{◌≡◌, ℕ, ◌-◌, ◌<◌, ◌≤◌, List, [], Ok, Some, None, true, false, IsTrue};
ghost use Rattle.std.specs.List.Sorted.{IsNonDecreasing};
ghost use Rattle.key_check.specs.Cells.{Adds};
ghost use Rattle.key_check.specs.Levels.{AreWhole, IsWhole, Leaves, PiecesStand, StandsThere, pieces_total, total_there};
ghost use Rattle.page_checks.specs.Reads.{OnlyChecks};

use crate::corner::Corner;
use crate::entry_corners::push_entries;
use crate::leveled::{Leveled, push_leveled};
use crate::merging::merge;
use crate::piece_node::node_of;
use crate::pieces_below::push_children;
use page_checks::CheckFault;
use ports::Pages;
use std::alloc::Global;

/// Whether the nodes from the pieces' pages down stand for them, all of them among these, which are in order. Puts corners behind
/// the others, whose sum is the total of the nodes within the pieces. No piece is of a higher level than this one.
///
/// A node is reached from each copy of its parent. Pieces of it that follow one another are merged, so that it is read about once.
pub(crate) fn walk_levels<P: Pages>(
    alloc: Global,
    pages: &mut P,
    nodes: &[u64],
    level: u8,
    pieces: Vec<Leveled>,
    lows: &mut Vec<u64>,
    corners: &mut Vec<Corner>,
) -> Result<bool, CheckFault>
    requires order { IsNonDecreasing nodes.now }
    requires whole { AreWhole level pieces.items }
    ensures stands { result ≡ Ok true → IsTrue (P.tells pages.old) → PiecesStand (P.map pages.old) nodes.now pieces.items }
    ensures totals { result ≡ Ok true → IsTrue (P.tells pages.old) → Adds (pieces_total (P.map pages.old) pieces.items) corners.old.items corners.new.items }
    ensures refused { result ≡ Ok false → IsTrue (P.tells pages.old) → PiecesStand (P.map pages.old) nodes.now pieces.items → ⊥ }
    ensures reads { OnlyChecks P.Pages pages.old pages.new result }
{
    if level == 0 {
        return Ok(pieces.is_empty());
    }
    let Some(below) = pieces_below(alloc, pages, nodes, level, pieces, lows, corners)? else {
        return Ok(false);
    };
    walk_levels(alloc, pages, nodes, level - 1, below, lows, corners)
}

// The pieces that are left once those of the level were gone to, where their nodes stand.
fn pieces_below<P: Pages>(
    alloc: Global,
    pages: &mut P,
    nodes: &[u64],
    level: u8,
    pieces: Vec<Leveled>,
    lows: &mut Vec<u64>,
    corners: &mut Vec<Corner>,
) -> Result<Option<Vec<Leveled>>, CheckFault>
    requires order { IsNonDecreasing nodes.now }
    requires some { 1 ≤ level }
    requires whole { AreWhole level pieces.items }
    ensures whole { (below : Vec Leveled) → result ≡ Ok (Some below) → AreWhole (level - 1) below.items }
    ensures leaves { (below : Vec Leveled) → result ≡ Ok (Some below) → IsTrue (P.tells pages.old)
        → Leaves (PiecesStand (P.map pages.old) nodes.now pieces.items) (pieces_total (P.map pages.old) pieces.items) (P.map pages.old) nodes.now [] below.items corners.old.items corners.new.items }
    ensures refused { result ≡ Ok None → IsTrue (P.tells pages.old) → PiecesStand (P.map pages.old) nodes.now pieces.items → ⊥ }
    ensures reads { OnlyChecks P.Pages pages.old pages.new result }
{
    let merged = merge(alloc, pieces)?;
    let mut below = Vec::new(alloc);
    if walk_pieces(
        pages,
        nodes,
        level,
        merged.as_slice(),
        lows,
        corners,
        &mut below,
    )? {
        Ok(Some(below))
    } else {
        Ok(None)
    }
}

// The same for pieces of which none is to be merged.
fn walk_pieces<P: Pages>(
    pages: &mut P,
    nodes: &[u64],
    level: u8,
    pieces: &[Leveled],
    lows: &mut Vec<u64>,
    corners: &mut Vec<Corner>,
    below: &mut Vec<Leveled>,
) -> Result<bool, CheckFault>
    requires order { IsNonDecreasing nodes.now }
    requires some { 1 ≤ level }
    requires whole { AreWhole level pieces.now }
    ensures whole { result ≡ Ok true → AreWhole (level - 1) below.old.items → AreWhole (level - 1) below.new.items }
    ensures leaves { result ≡ Ok true → IsTrue (P.tells pages.old)
        → Leaves (PiecesStand (P.map pages.old) nodes.now pieces.now) (pieces_total (P.map pages.old) pieces.now) (P.map pages.old) nodes.now below.old.items below.new.items corners.old.items corners.new.items }
    ensures refused { result ≡ Ok false → IsTrue (P.tells pages.old) → PiecesStand (P.map pages.old) nodes.now pieces.now → ⊥ }
    ensures reads { OnlyChecks P.Pages pages.old pages.new result }
{
    for l in pieces {
        if !walk_piece(pages, nodes, level, *l, lows, corners, below)? {
            return Ok(false);
        }
    }
    Ok(true)
}

// The same for one of them. One of a lower level is left.
fn walk_piece<P: Pages>(
    pages: &mut P,
    nodes: &[u64],
    level: u8,
    l: Leveled,
    lows: &mut Vec<u64>,
    corners: &mut Vec<Corner>,
    below: &mut Vec<Leveled>,
) -> Result<bool, CheckFault>
    requires order { IsNonDecreasing nodes.now }
    requires some { 1 ≤ level }
    requires whole { IsWhole level l }
    ensures whole { result ≡ Ok true → AreWhole (level - 1) below.old.items → AreWhole (level - 1) below.new.items }
    ensures leaves { result ≡ Ok true → IsTrue (P.tells pages.old)
        → Leaves (StandsThere (P.map pages.old) nodes.now l) (total_there (P.map pages.old) l) (P.map pages.old) nodes.now below.old.items below.new.items corners.old.items corners.new.items }
    ensures refused { result ≡ Ok false → IsTrue (P.tells pages.old) → StandsThere (P.map pages.old) nodes.now l → ⊥ }
    ensures reads { OnlyChecks P.Pages pages.old pages.new result }
{
    if l.level != level {
        push_leveled(below, l)?;
        return Ok(true);
    }
    let Some(node) = node_of(pages, nodes, l.piece, level, lows)? else {
        return Ok(false);
    };
    let entries = node.entries.as_slice();
    push_entries(corners, entries, l.piece)?;
    if level == 1 {
        return Ok(true);
    }
    push_children(entries, l.piece, level - 1, below)?;
    Ok(true)
}
