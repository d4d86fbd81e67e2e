//! The first leaf of a tree.
ghost use Rattle.std.specs.Prelude.{◌≡◌, ◌<◌, ◌≤◌, ◌==◌, false, ℕ, Some, None, Err, IsTrue, IfOk};
ghost use Rattle.ports.specs.Calls.{Grows};
ghost use Rattle.page_layout.specs.MvNode.{IsMvNode, mv_node_page};
ghost use Rattle.mv_pages.specs.Edits.{new_entry};
ghost use Rattle.mvsb_tree.specs.Tops.{first_node};

use arrayvec::ArrayVec;
use page_layout::{MvEntry, MvNode, make_page};
use ports::{Stage, StageFault};

/// Makes the page of a leaf of one addition, the first of a chain.
///
/// `Damaged` comes only where the free pages are not in order.
pub fn first_leaf<S: Stage>(
    stage: &mut S,
    key: u64,
    version: u32,
    value: u128,
) -> Result<u64, StageFault>
    requires version { version < 4294967295 }
    ensures number { IfOk result (λ page. 3 ≤ page) }
    ensures rules { IsMvNode (first_node key version value) }
    ensures made { IfOk result (λ page. IsTrue (S.tells stage.old) → (S.map stage.old page ≡ None)
        × (S.map stage.new page ≡ Some (mv_node_page (first_node key version value)))
        × ((p : ℕ) → (page == p) ≡ false → S.map stage.new p ≡ S.map stage.old p)) }
    ensures damaged { (p : ℕ) → result ≡ Err (StageFault.Damaged p) → IsTrue (S.tells stage.old) → ¬ S.free_in_order stage.old }
    ensures grows { Grows S.Pages 1 stage.old stage.new result }
{
    let leaf = leaf_of(key, version, value);
    make_page(stage, &leaf)
}

// A leaf of one addition.
fn leaf_of(key: u64, version: u32, value: u128) -> MvNode
    requires version { version < 4294967295 }
    ensures node { result ≡ first_node key version value }
    ensures rules { IsMvNode result }
{
    let mut entries = ArrayVec::new();
    if key > 0 {
        entries.push(open_entry(0, version, 0));
    }
    entries.push(open_entry(key, version, value));
    MvNode {
        level: 1,
        place: 1,
        before: 0,
        entries,
    }
}

// An entry of a leaf that starts at the version and is not closed.
fn open_entry(low: u64, start: u32, value: u128) -> MvEntry
    ensures { result ≡ new_entry low start value 0 }
{
    MvEntry {
        low,
        start,
        end: 4294967295,
        value,
        child: 0,
    }
}
