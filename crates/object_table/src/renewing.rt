//! Writing an object table anew.
ghost use Rattle.std.specs.Prelude.{◌≡◌, ◌≢◌, ℕ, ◌+◌, ◌*◌, ◌^◌, ◌<◌, ◌≤◌, List, length, Err, IsTrue, IfOk};
ghost use Rattle.bw_types.specs.declared.dated.Dated.{Dated};
ghost use Rattle.page_layout.specs.TreeValue.{IsTreeTyped, plain_tree_fits};
ghost use Rattle.ports.specs.Calls.{Changes};
ghost use Rattle.ports.specs.Frame.{Replaces};
ghost use Rattle.object_table.specs.Lives.{table_pages};
ghost use Rattle.object_table.specs.Stands.{TableStands};
ghost use Rattle.object_table.specs.declared.form.Form.TheVariants.{ByIds, ByLives};

use crate::{enter, free_old, table_laws, walk_old};
use bw_types::Tree;
use page_layout::footprint_laws;
use ports::{Stage, StageFault, changes_compose};

/// Writes a table of the earlier form anew by lives, with the same objects, and frees the pages that it had.
///
/// After a refusal the stage is to be abandoned. `Disk` comes only where the count of faults rose, `PageLimit` only where
/// as many pages are given out as the limit allows, and `Damaged` never where the table stands and the free pages are in
/// order.
pub fn renew<S: Stage>(stage: &mut S, old: &Tree) -> Result<Tree, StageFault>
    ensures stands { IfOk result (λ table. IsTrue (S.tells stage.old) → (lives : List Dated) → TableStands ByIds (S.map stage.old) old.now lives
        → TableStands ByLives (S.map stage.new) table lives) }
    // The map changes exactly by the pages of the two tables.
    ensures change { IfOk result (λ table. IsTrue (S.tells stage.old) → (lives : List Dated) → TableStands ByIds (S.map stage.old) old.now lives
        → Replaces (table_pages ByIds (S.map stage.old) old.now) (table_pages ByLives (S.map stage.new) table) (S.map stage.old) (S.map stage.new)) }
    // Whatever the pages hold, there are as many objects, and a page may spell what comes back.
    ensures count { IfOk result (λ table. table.count ≡ old.now.count) }
    ensures rules { IfOk result (λ table. IsTrue (plain_tree_fits table) × IsTreeTyped table) }
    ensures sound { (lives : List Dated) (page : ℕ) → IsTrue (S.tells stage.old) → TableStands ByIds (S.map stage.old) old.now lives
        → length lives < 2 ^ 28 → S.free_in_order stage.old → result ≢ Err (StageFault.Damaged page) }
    // However many page numbers are given out, where the table does not stand.
    ensures changes { Changes S.Pages (S.allotted stage.new + 1) stage.old stage.new result }
    ensures growth { IsTrue (S.tells stage.old) → (lives : List Dated) → TableStands ByIds (S.map stage.old) old.now lives
        → length lives < 2 ^ 28 → Changes S.Pages (8 * old.now.count) stage.old stage.new result }
{
    table_laws();
    footprint_laws();
    changes_compose();
    let mut table = Tree::default();
    let mut after = None;
    for _ in 0..old.count {
        let Some(dated) = walk_old(stage, old, after)? else {
            return Err(StageFault::Damaged(old.root));
        };
        enter(stage, &mut table, &dated)?;
        after = Some(dated.object.id);
    }
    free_old(stage, old)?;
    Ok(table)
}
