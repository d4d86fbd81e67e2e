//! Storing a node in its page, or in two.
ghost use Rattle.std.specs.Prelude.{◌≡◌, ◌≤◌, ℕ, Err, IsTrue, IsSome, IfOk};
ghost use Rattle.ports.specs.Calls.{Grows};
ghost use Rattle.page_layout.specs.LifeNode.{IsLifeIndex, IsLifeLeaf, IsLifeNode};
ghost use Rattle.object_table.specs.Stored.{AreHalves, IsSecondOf, IsStored, entry_name, index_of, leaf_of, object_name};

use crate::node::{copied_entries, copied_objects};
use arrayvec::ArrayVec;
use bw_types::Dated;
use page_layout::{LifeEntry, LifeNode, make_page, put_page};
use ports::{Stage, StageFault};

/// Stores a leaf of these objects in its page. Where they are 15, the last 8 of them go to a new page,
/// which is the result.
pub fn store_leaf<S: Stage>(
    stage: &mut S,
    page: u64,
    objects: ArrayVec<Dated, 15>,
) -> Result<Option<LifeEntry>, StageFault>
    requires rules { IsLifeLeaf 15 objects.items }
    requires in_map { IsTrue (S.tells stage.old) → IsSome (S.map stage.old page) }
    ensures stored { IfOk result (λ second. IsTrue (S.tells stage.old)
        → IsStored leaf_of object_name 14 7 objects.items (S.map stage.old) (S.map stage.new) page second) }
    ensures second { IfOk result (λ second. IsSecondOf object_name 14 7 objects.items second) }
    ensures damaged { (p : ℕ) → result ≡ Err (StageFault.Damaged p) → IsTrue (S.tells stage.old) → ¬ S.free_in_order stage.old }
    ensures grows { Grows S.Pages 1 stage.old stage.new result }
{
    if objects.len() <= 14 {
        put_page(stage, page, &LifeNode::Leaf { objects })?;
        return Ok(None);
    }
    let objects = objects.as_slice();
    let first = LifeNode::Leaf {
        objects: copied_objects(&objects[..7]),
    };
    let last = LifeNode::Leaf {
        objects: copied_objects(&objects[7..]),
    };
    let low = objects[7];
    let child = put_halves(stage, page, &first, &last)?;
    Ok(Some(LifeEntry {
        low_id: low.object.id,
        low_life: low.life,
        child,
    }))
}

/// Stores an index node of these entries in its page. Where they are 201, the last 101 of them go to a
/// new page, which is the result.
pub fn store_index<S: Stage>(
    stage: &mut S,
    page: u64,
    level: u8,
    entries: ArrayVec<LifeEntry, 201>,
) -> Result<Option<LifeEntry>, StageFault>
    requires rules { IsLifeIndex 201 level entries.items }
    requires in_map { IsTrue (S.tells stage.old) → IsSome (S.map stage.old page) }
    ensures stored { IfOk result (λ second. IsTrue (S.tells stage.old)
        → IsStored (index_of level) entry_name 200 100 entries.items (S.map stage.old) (S.map stage.new) page second) }
    ensures second { IfOk result (λ second. IsSecondOf entry_name 200 100 entries.items second) }
    ensures damaged { (p : ℕ) → result ≡ Err (StageFault.Damaged p) → IsTrue (S.tells stage.old) → ¬ S.free_in_order stage.old }
    ensures grows { Grows S.Pages 1 stage.old stage.new result }
{
    if entries.len() <= 200 {
        put_page(stage, page, &LifeNode::Index { level, entries })?;
        return Ok(None);
    }
    let entries = entries.as_slice();
    let first = LifeNode::Index {
        level,
        entries: copied_entries(&entries[..100]),
    };
    let last = LifeNode::Index {
        level,
        entries: copied_entries(&entries[100..]),
    };
    let low = entries[100];
    let child = put_halves(stage, page, &first, &last)?;
    Ok(Some(LifeEntry {
        low_id: low.low_id,
        low_life: low.low_life,
        child,
    }))
}

// Puts the first node into the page, and the last into a new one, which is the result.
fn put_halves<S: Stage>(
    stage: &mut S,
    page: u64,
    first: &LifeNode,
    last: &LifeNode,
) -> Result<u64, StageFault>
    requires rules { IsLifeNode first.now × IsLifeNode last.now }
    requires in_map { IsTrue (S.tells stage.old) → IsSome (S.map stage.old page) }
    ensures number { IfOk result (λ second. 3 ≤ second) }
    ensures stored { IfOk result (λ second. IsTrue (S.tells stage.old) → AreHalves first.now last.now (S.map stage.old) (S.map stage.new) page second) }
    ensures damaged { (p : ℕ) → result ≡ Err (StageFault.Damaged p) → IsTrue (S.tells stage.old) → ¬ S.free_in_order stage.old }
    ensures grows { Grows S.Pages 1 stage.old stage.new result }
{
    let second = make_page(stage, last)?;
    put_page(stage, page, first)?;
    Ok(second)
}
