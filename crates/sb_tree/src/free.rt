//! Freeing a tree.
ghost use Rattle.std.specs.Prelude.{◌≡◌, ◌≢◌, ◌⊎◌, ℕ, List, [], Err, IsTrue, OnOk};
ghost use Rattle.bw_types.specs.declared.point.Point.{Point};
ghost use Rattle.page_layout.specs.Footprint.{IsNamedTwice};
ghost use Rattle.ports.specs.Calls.{Changes};
ghost use Rattle.ports.specs.Frame.{AreInMap, Replaces};
ghost use Rattle.sb_tree.specs.Damage.{IsDamagedForFree, IsDamagedFrom};
ghost use Rattle.sb_tree.specs.Stands.{SbStands};
ghost use Rattle.sb_tree.specs.Steps.{pages_below, tree_pages};

use bw_types::Tree;
use page_layout::{SbNode, read_level};
use ports::{Stage, StageFault};

/// Frees the pages of the tree, and no other.
///
/// After a refusal the stage is to be abandoned. `Disk` comes only where the count of faults rose, and
/// `PageLimit` never. `Damaged` carries a page that is missing, is no node of its level, or is reached
/// a second time.
pub fn sb_free<S: Stage>(stage: &mut S, tree: &Tree) -> Result<(), StageFault>
    // Whatever the pages hold, those of the tree were in the map and are gone, and nothing else changed.
    ensures there { OnOk result (IsTrue (S.tells stage.old) → AreInMap (S.map stage.old) (tree_pages (S.map stage.old) tree.now)) }
    ensures freed { OnOk result (IsTrue (S.tells stage.old)
        → Replaces (tree_pages (S.map stage.old) tree.now) [] (S.map stage.old) (S.map stage.new)) }
    ensures damaged { (page : ℕ) → result ≡ Err (StageFault.Damaged page) → IsTrue (S.tells stage.old)
        → IsDamagedForFree (S.map stage.old) tree.now page }
    ensures sound { (points : List Point) (page : ℕ) → IsTrue (S.tells stage.old)
        → SbStands (S.map stage.old) tree.now points → result ≢ Err (StageFault.Damaged page) }
    ensures changes { Changes S.Pages 0 stage.old stage.new result }
{
    free_below(stage, tree.root, tree.levels)
}

// Frees the page of a level, and those below it.
fn free_below<S: Stage>(stage: &mut S, page: u64, level: u8) -> Result<(), StageFault>
    ensures there { OnOk result (IsTrue (S.tells stage.old) → AreInMap (S.map stage.old) (pages_below level (S.map stage.old) page)) }
    ensures freed { OnOk result (IsTrue (S.tells stage.old)
        → Replaces (pages_below level (S.map stage.old) page) [] (S.map stage.old) (S.map stage.new)) }
    ensures damaged { (damaged : ℕ) → result ≡ Err (StageFault.Damaged damaged) → IsTrue (S.tells stage.old)
        → IsDamagedFrom (S.map stage.old) level page damaged ⊎ IsNamedTwice (pages_below level (S.map stage.old) page) damaged }
    ensures changes { Changes S.Pages 0 stage.old stage.new result }
{
    if level == 0 {
        return Ok(());
    }
    let node: SbNode = read_level(stage, page, level)?;
    stage.free(page)?;
    for entry in node.entries.as_slice() {
        free_below(stage, entry.child, level - 1)?;
    }
    Ok(())
}
