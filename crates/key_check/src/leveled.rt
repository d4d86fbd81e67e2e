//! A piece with the level of its node.
ghost use Rattle.std.specs.Prelude.{◌≡◌, ◌<◌, ◌++◌, ◌^◌, ◌∷◌, [], OnOk};

use crate::piece::Piece;
use std::alloc::AllocError;

/// The page of the piece is to spell a node of this level.
#[derive(Clone, Copy)]
pub(crate) struct Leveled {
    pub(crate) level: u8,
    pub(crate) piece: Piece,
}

/// Puts a piece behind the others.
pub(crate) fn push_leveled(pieces: &mut Vec<Leveled>, l: Leveled) -> Result<(), AllocError>
    ensures items { OnOk result (pieces.new.items ≡ pieces.old.items ++ l ∷ []) }
    ensures fits { l.piece.low < 2 ^ 64 }
{
    pieces.push(l)?;
    Ok(())
}
