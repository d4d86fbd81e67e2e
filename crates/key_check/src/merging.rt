//! Pieces of a node that follow one another are made one.
ghost use Rattle.std.specs.Prelude.{◌≡◌, ℕ, List, [], IsTrue, IfOk, OnOk};
ghost use Rattle.ports.specs.Pages.{PageMap};
ghost use Rattle.key_check.specs.Levels.{AreWhole, Follows, IsWhole, PiecesStand, Pushes, StandsThere, pieces_total, total_there};

use crate::leveled::{Leveled, push_leveled};
use crate::piece::Piece;
use std::alloc::{AllocError, Global};

/// As few pieces as stand where these do, and come to the same.
pub(crate) fn merge(alloc: Global, mut pieces: Vec<Leveled>) -> Result<Vec<Leveled>, AllocError>
    ensures { IfOk result (λ merged. (level : ℕ) → AreWhole level pieces.items → AreWhole level merged.items
        × ((m : PageMap) (nodes : List ℕ) → Pushes (PiecesStand m nodes pieces.items) (pieces_total m pieces.items) m nodes [] merged.items)) }
{
    pieces.sort_unstable_by_key(|l| place_of(*l));
    Ok(merge_in_order(alloc, pieces.as_slice())?)
}

// Pieces of the same node stand behind one another in the order of their versions.
fn place_of(l: Leveled) -> u128 {
    (u128::from(l.piece.page) << 32) | u128::from(l.piece.from)
}

// The same of pieces in this order.
fn merge_in_order(alloc: Global, pieces: &[Leveled]) -> Result<Vec<Leveled>, AllocError>
    ensures { IfOk result (λ merged. (level : ℕ) → AreWhole level pieces.now → AreWhole level merged.items
        × ((m : PageMap) (nodes : List ℕ) → Pushes (PiecesStand m nodes pieces.now) (pieces_total m pieces.now) m nodes [] merged.items)) }
{
    let mut merged = Vec::new(alloc);
    for l in pieces {
        put_piece(&mut merged, *l)?;
    }
    Ok(merged)
}

// Puts a piece behind the others, or lengthens the last one by it.
fn put_piece(merged: &mut Vec<Leveled>, l: Leveled) -> Result<(), AllocError>
    ensures { OnOk result ((level : ℕ) → AreWhole level merged.old.items → IsWhole level l → AreWhole level merged.new.items
        × ((m : PageMap) (nodes : List ℕ) → Pushes (StandsThere m nodes l) (total_there m l) m nodes merged.old.items merged.new.items)) }
{
    let Some(last) = merged.pop() else {
        push_leveled(merged, l)?;
        return Ok(());
    };
    if !follows(last, l) {
        push_leveled(merged, last)?;
        push_leveled(merged, l)?;
        return Ok(());
    }
    let piece = Piece {
        to: l.piece.to,
        ..last.piece
    };
    push_leveled(merged, Leveled { piece, ..l })?;
    Ok(())
}

// Whether the second piece goes on where the first one ends.
fn follows(a: Leveled, b: Leveled) -> bool
    ensures { IsTrue result → Follows a b }
{
    let (p, q) = (a.piece, b.piece);
    (a.level == b.level && p.page == q.page)
        && (p.low == q.low && p.high == q.high)
        && (p.least == q.least && p.to == u64::from(q.from))
}
