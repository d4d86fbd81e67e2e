//! Freeing a table.
ghost use Rattle.std.specs.Prelude.{◌≡◌, ◌≢◌, ◌⊎◌, ℕ, List, [], Err, IsTrue, OnOk};
ghost use Rattle.bw_types.specs.declared.dated.Dated.{Dated};
ghost use Rattle.page_layout.specs.Footprint.{IsNamedTwice};
ghost use Rattle.ports.specs.Calls.{Changes};
ghost use Rattle.ports.specs.Frame.{AreInMap, Replaces};
ghost use Rattle.object_table.specs.declared.form.Form.TheVariants.{ByIds};
ghost use Rattle.object_table.specs.Damage.{IsDamagedForFree, IsDamagedFrom};
ghost use Rattle.object_table.specs.Nodes.{entries_in};
ghost use Rattle.object_table.specs.Lives.{pages_below, table_pages};
ghost use Rattle.object_table.specs.Stands.{TableStands};

use crate::form::Form;
use crate::node::read_form;
use bw_types::Tree;
use page_layout::{LifeEntry, LifeNode};
use ports::{Stage, StageFault};

/// Frees the pages of a table by ids, and no other.
///
/// After a refusal the stage is to be abandoned. `Disk` comes only where the count of faults rose, and
/// `PageLimit` never. `Damaged` carries a page that is missing, is no node of its level, or is reached
/// a second time.
pub fn free_old<S: Stage>(stage: &mut S, table: &Tree) -> Result<(), StageFault>
    // Whatever the pages hold, those of the table were in the map and are gone, and nothing else changed.
    ensures there { OnOk result (IsTrue (S.tells stage.old) → AreInMap (S.map stage.old) (table_pages ByIds (S.map stage.old) table.now)) }
    ensures freed { OnOk result (IsTrue (S.tells stage.old)
        → Replaces (table_pages ByIds (S.map stage.old) table.now) [] (S.map stage.old) (S.map stage.new)) }
    ensures damaged { (page : ℕ) → result ≡ Err (StageFault.Damaged page) → IsTrue (S.tells stage.old)
        → IsDamagedForFree ByIds (S.map stage.old) table.now page }
    ensures sound { (lives : List Dated) (page : ℕ) → IsTrue (S.tells stage.old)
        → TableStands ByIds (S.map stage.old) table.now lives → result ≢ Err (StageFault.Damaged page) }
    ensures changes { Changes S.Pages 0 stage.old stage.new result }
{
    free_below(stage, Form::ByIds, table.root, table.levels)
}

// Frees the page of a level, and those below it.
fn free_below<S: Stage>(stage: &mut S, form: Form, page: u64, level: u8) -> Result<(), StageFault>
    ensures there { OnOk result (IsTrue (S.tells stage.old) → AreInMap (S.map stage.old) (pages_below form level (S.map stage.old) page)) }
    ensures freed { OnOk result (IsTrue (S.tells stage.old)
        → Replaces (pages_below form level (S.map stage.old) page) [] (S.map stage.old) (S.map stage.new)) }
    ensures damaged { (damaged : ℕ) → result ≡ Err (StageFault.Damaged damaged) → IsTrue (S.tells stage.old)
        → IsDamagedFrom form (S.map stage.old) level page damaged ⊎ IsNamedTwice (pages_below form level (S.map stage.old) page) damaged }
    ensures changes { Changes S.Pages 0 stage.old stage.new result }
{
    if level == 0 {
        return Ok(());
    }
    let node = read_form(stage, form, page, level)?;
    stage.free(page)?;
    for entry in entries_of(&node) {
        free_below(stage, form, entry.child, level - 1)?;
    }
    Ok(())
}

fn entries_of(node: &LifeNode) -> &[LifeEntry]
    ensures { result.now ≡ entries_in node.now }
{
    match node {
        LifeNode::Leaf { objects: _ } => &[],
        LifeNode::Index { level: _, entries } => entries.as_slice(),
    }
}
