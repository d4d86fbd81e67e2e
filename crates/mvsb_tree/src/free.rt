//! Freeing a tree.
ghost use Rattle.std.specs.Prelude.{◌≡◌, ◌≢◌, ℕ, List, [], Err, IsTrue, OnOk};
ghost use Rattle.bw_types.specs.declared.point.Point.{Point};
ghost use Rattle.ports.specs.Calls.{Changes};
ghost use Rattle.ports.specs.Frame.{AreInMap, Replaces};
ghost use Rattle.mvsb_tree.specs.Damage.{IsDamagedForFree, IsDamagedInChain};
ghost use Rattle.mvsb_tree.specs.Gone.{AreDropped, WasDamaged};
ghost use Rattle.mvsb_tree.specs.Stands.{ChainStands, MvStands};
ghost use Rattle.mvsb_tree.specs.Steps.{chain_from, place_count, tree_pages};

use crate::directory::directory;
use bw_types::Tree;
use page_layout::{MvNode, read_page};
use ports::{Stage, StageFault};
use sb_tree::sb_free;

/// Frees the pages of the tree, those of the directory and those of the chain of nodes, and no other.
///
/// After a refusal the stage is to be abandoned. `Disk` comes only where the count of faults rose, and
/// `PageLimit` never; `NoMemory` is the stage's. `Damaged` carries a page that is missing or is no node, a page of the directory
/// not of its level, a page of the chain not of its place, or one that is reached a second time.
pub fn mv_free<S: Stage>(stage: &mut S, tree: &Tree) -> Result<(), StageFault>
    // Of whatever map this was before other pages were freed: the tree's pages were all still there, and are gone; nothing
    // else changed.
    ensures dropped { OnOk result (IsTrue (S.tells stage.old)
        → AreDropped (λ pages. tree_pages pages tree.now) (S.map stage.old) (S.map stage.new)) }
    ensures damaged { (page : ℕ) → result ≡ Err (StageFault.Damaged page) → IsTrue (S.tells stage.old)
        → WasDamaged (λ pages. tree_pages pages tree.now) (λ pages damaged. IsDamagedForFree pages tree.now damaged) (S.map stage.old) page }
    // Where it answers, each page of the chain held a node of its place.
    ensures chain { OnOk result (IsTrue (S.tells stage.old) → (page : ℕ)
        → IsDamagedInChain (S.map stage.old) (place_count (S.map stage.old) tree.now) tree.now.last page → ⊥) }
    ensures sound { (points : List Point) (page : ℕ) → IsTrue (S.tells stage.old)
        → MvStands (S.map stage.old) tree.now points → result ≢ Err (StageFault.Damaged page) }
    ensures changes { Changes S.Pages 0 stage.old stage.new result }
{
    if tree.levels == 0 {
        return Ok(());
    }
    let node: MvNode = read_page(stage, tree.last)?;
    let places = node.place;
    sb_free(stage, &directory(tree))?;
    free_chain(stage, tree.last, places)
}

// Frees the chain of so many places, from its last page on. Each page is read before it is freed, since
// it names the next.
fn free_chain<S: Stage>(stage: &mut S, last: u64, places: u32) -> Result<(), StageFault>
    ensures there { OnOk result (IsTrue (S.tells stage.old) → AreInMap (S.map stage.old) (chain_from places (S.map stage.old) last)) }
    ensures freed { OnOk result (IsTrue (S.tells stage.old)
        → Replaces (chain_from places (S.map stage.old) last) [] (S.map stage.old) (S.map stage.new)) }
    ensures damaged { (page : ℕ) → result ≡ Err (StageFault.Damaged page) → IsTrue (S.tells stage.old)
        → IsDamagedInChain (S.map stage.old) places last page }
    ensures whole { OnOk result (IsTrue (S.tells stage.old) → (page : ℕ) → IsDamagedInChain (S.map stage.old) places last page → ⊥) }
    ensures sound { (page : ℕ) → IsTrue (S.tells stage.old) → ChainStands places (S.map stage.old) last → result ≢ Err (StageFault.Damaged page) }
    ensures changes { Changes S.Pages 0 stage.old stage.new result }
{
    let mut page = last;
    for passed in 0..places {
        let node: MvNode = read_page(stage, page)?;
        if node.place != places - passed {
            return Err(StageFault::Damaged(page));
        }
        stage.free(page)?;
        page = node.before;
    }
    Ok(())
}
