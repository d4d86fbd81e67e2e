//! The rows of a batch, first in the table and then in the trees.
//!
//! So the pages of the table are got together: those of a tree, which may be built anew in between, do not push them out
//! of the cache.
ghost use Rattle.std.specs.Prelude.{◌≡◌, ◌+◌, ◌-◌, ◌*◌, ◌^◌, ◌<◌, ◌≤◌, length, IsTrue, IfOk};
ghost use Rattle.std.specs.List.{list_all};
ghost use Rattle.bw_types.specs.Fits.{row_fits};
ghost use Rattle.bw_types.specs.History.{History, changes, flat};
ghost use Rattle.bw_types.specs.Lawful.{IsLawful, IsLawfulBatch};
ghost use Rattle.ports.specs.Calls.{Changes};
ghost use Rattle.corner_forest.specs.Enters.{first_pages};
ghost use Rattle.page_warehouse.specs.Begun.{next_version, with_changes};
ghost use Rattle.page_warehouse.specs.Entering.{KeepsOn, PagesKeep, RootsFit, StayRoots};
ghost use Rattle.page_warehouse.specs.Needs.{StayOnePage, changes_need};

use crate::in_table::enter_table;
use crate::in_trees::enter_trees;
use crate::next_change::changes_go_on;
use crate::roots::Roots;
use bw_types::Row;
use dom_index::DomIndex;
use history_laws::entries_are_changes;
use ports::{Stage, StageFault};
use std::alloc::Global;

/// Enters the rows of a batch, the first change of which has this event number; answers the number after the last.
pub(crate) fn enter_rows<X: DomIndex, S: Stage>(
    alloc: Global,
    stage: &mut S,
    roots: &mut Roots,
    rows: &[Row],
    event: u32,
    version: u32,
) -> Result<u32, StageFault>
    requires roots { RootsFit X.DIMS roots.old }
    requires fit { IsTrue (list_all (row_fits roots.old.forest.params) rows.now) }
    requires event { event + length (flat rows.now) ≤ 2 ^ 28 }
    requires version { (1 ≤ version) × (version < 2 ^ 32 - 1) }
    ensures event { IfOk result (λ next. next ≡ event + length (flat rows.now)) }
    ensures keeps_on { IsTrue (S.tells stage.old) → (h : History) → IsLawful roots.old.forest.params h
        → IsLawfulBatch roots.old.forest.params h (flat rows.now) → version ≡ next_version h → event ≡ length (changes h)
        → PagesKeep X.DomIndex (S.map stage.old) roots.old h
        → KeepsOn S.Pages (changes_need roots.old.forest.params (length (changes h)) (length (flat rows.now))) stage.old stage.new result
        (PagesKeep X.DomIndex (S.map stage.new) roots.new (with_changes h (flat rows.now))) }
    ensures small { IsTrue (S.tells stage.old) → (h : History) → IsLawful roots.old.forest.params h
        → IsLawfulBatch roots.old.forest.params h (flat rows.now) → version ≡ next_version h → event ≡ length (changes h)
        → PagesKeep X.DomIndex (S.map stage.old) roots.old h
        → StayOnePage roots.old.forest.params (length (changes h) + length (flat rows.now)) roots.old.forest.roots.items
        → Changes S.Pages (8 * length (flat rows.now) + first_pages roots.old.forest.params roots.old.forest.roots.items) stage.old stage.new result }
    ensures roots { StayRoots X.DIMS roots.old roots.new result }
    ensures changes { Changes S.Pages (S.allotted stage.new + 1) stage.old stage.new result }
{
    changes_go_on();
    entries_are_changes();
    let mut waiting = Vec::new(alloc);
    let end = enter_table::<X, S>(stage, roots, &mut waiting, rows, event, version)?;
    enter_trees::<X, S>(alloc, stage, roots, waiting.as_slice(), version)?;
    Ok(end)
}
