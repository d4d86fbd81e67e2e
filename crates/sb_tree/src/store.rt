//! Storing a node in its page, or in two.
ghost use Rattle.std.specs.Prelude.{◌≡◌, ℕ, Some, Err, IsTrue, IsSome, IfOk, length};
ghost use Rattle.ports.specs.Calls.{Grows};
ghost use Rattle.sb_tree.specs.Stored.{IsSecondOf, IsStorable, IsStored};

use crate::second::Second;
use page_layout::{SbNode, put_page, split_off};
use ports::{Stage, StageFault};

/// Stores the node in its page. Where it has 65 entries, the last 33 of them go to a new page, which
/// is the result.
pub fn store<S: Stage>(stage: &mut S, page: u64, node: SbNode) -> Result<Option<Second>, StageFault>
    requires rules { IsStorable node }
    requires in_map { IsTrue (S.tells stage.old) → IsSome (S.map stage.old page) }
    ensures stored { IfOk result (λ second. IsTrue (S.tells stage.old)
        → IsStored node.level node.entries.items (S.map stage.old) (S.map stage.new) page second) }
    ensures second { IfOk result (λ second. IsSecondOf node.entries.items second) }
    ensures damaged { (p : ℕ) → result ≡ Err (StageFault.Damaged p) → IsTrue (S.tells stage.old) → ¬ S.free_in_order stage.old }
    ensures grows { Grows S.Pages 1 stage.old stage.new result }
{
    if node.entries.len() <= 64 {
        put_page(stage, page, &node)?;
        return Ok(None);
    }
    let second = store_halves(stage, page, node)?;
    Ok(Some(second))
}

// Stores the first 32 of 65 entries in the page, and the others in a new one, which is the result. Stands by itself, so that a node
// that fits does not pay for the room of the halves.
#[inline(never)]
fn store_halves<S: Stage>(stage: &mut S, page: u64, node: SbNode) -> Result<Second, StageFault>
    requires rules { IsStorable node }
    requires full { length node.entries.items ≡ 65 }
    requires in_map { IsTrue (S.tells stage.old) → IsSome (S.map stage.old page) }
    ensures stored { IfOk result (λ second. IsTrue (S.tells stage.old)
        → IsStored node.level node.entries.items (S.map stage.old) (S.map stage.new) page (Some second)) }
    ensures second { IfOk result (λ second. IsSecondOf node.entries.items (Some second)) }
    ensures damaged { (p : ℕ) → result ≡ Err (StageFault.Damaged p) → IsTrue (S.tells stage.old) → ¬ S.free_in_order stage.old }
    ensures grows { Grows S.Pages 1 stage.old stage.new result }
{
    let mut first = node.entries;
    let second = split_off(&mut first, 32);
    let low = second.as_slice()[0].low;
    let second_page = stage.allot()?;
    let level = node.level;
    put_page(
        stage,
        second_page,
        &SbNode {
            level,
            entries: second,
        },
    )?;
    put_page(
        stage,
        page,
        &SbNode {
            level,
            entries: first,
        },
    )?;
    Ok(Second {
        low,
        page: second_page,
    })
}
