//! The pieces in which the children of a node are reached.
ghost use Rattle.std.specs.Prelude.{◌≡◌, ℕ, ◌^◌, ◌<◌, ◌≤◌, List, IsTrue, OnOk};
ghost use Rattle.ports.specs.Pages.{PageMap};
ghost use Rattle.mvsb_tree.specs.Stands.{ends_after};
ghost use Rattle.key_check.specs.Cells.{CellStands, CellsStand, cell_total, cells_total, next_low};
ghost use Rattle.key_check.specs.Levels.{AreWhole, Pushes};
ghost use Rattle.key_check.specs.Pieces.{StandsThroughout};

use crate::leveled::{Leveled, push_leveled};
use crate::life::{life_until, next_of};
use crate::piece::Piece;
use crate::run::run_of;
use page_layout::MvEntry;
use std::alloc::AllocError;

/// Puts the pieces of the children behind the others to which entries lead the keys of a piece.
pub(crate) fn push_children(
    entries: &[MvEntry],
    piece: Piece,
    level: u8,
    below: &mut Vec<Leveled>,
) -> Result<(), AllocError>
    requires versions { piece.to ≤ 2 ^ 32 }
    requires entries { StandsThroughout entries.now piece }
    ensures pushes { OnOk result ((m : PageMap) (nodes : List ℕ)
        → Pushes (CellsStand level m nodes piece entries.now) (cells_total level m piece entries.now) m nodes below.old.items below.new.items) }
    ensures whole { OnOk result (AreWhole level below.old.items → AreWhole level below.new.items) }
{
    let mut place = 0;
    while place < entries.len() {
        let run = run_of(entries, place);
        let life = life_until(piece, &entries[place], run.end);
        push_life(life, &entries[run.behind..], level, below)?;
        place = run.behind;
    }
    Ok(())
}

// The same for the child of one entry, which has these entries behind it, as long as the entry lives within the piece.
fn push_life(
    life: Piece,
    rest: &[MvEntry],
    level: u8,
    below: &mut Vec<Leveled>,
) -> Result<(), AllocError>
    requires versions { life.to ≤ 2 ^ 32 }
    requires keys { (version : ℕ) → life.from ≤ version → version < life.to → IsTrue (ends_after (next_low life.high rest.now version) life.low) }
    ensures pushes { OnOk result ((m : PageMap) (nodes : List ℕ)
        → Pushes (CellStands level m nodes life rest.now life.to) (cell_total level m life rest.now life.to) m nodes below.old.items below.new.items) }
    ensures whole { OnOk result (AreWhole level below.old.items → AreWhole level below.new.items) }
{
    let mut from = u64::from(life.from);
    while from < life.to {
        let next = next_of(rest, life.high, from as u32, life.to);
        let piece = Piece {
            page: life.page,
            from: from as u32,
            to: next.until,
            low: life.low,
            high: next.high,
            least: life.least,
        };
        push_leveled(below, Leveled { level, piece })?;
        from = next.until;
    }
    Ok(())
}
