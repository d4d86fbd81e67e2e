//! A batch is entered, in a table of the earlier form after that was written anew.
ghost use Rattle.std.specs.Prelude.{◌≡◌, ◌+◌, ◌-◌, ◌*◌, ◌^◌, ◌<◌, ◌≤◌, length, IsTrue, IfOk, if◌then◌else◌};
ghost use Rattle.std.specs.List.{list_all};
ghost use Rattle.bw_types.specs.Fits.{row_fits};
ghost use Rattle.bw_types.specs.History.{History, changes, flat};
ghost use Rattle.bw_types.specs.Lawful.{IsLawful, IsLawfulBatch};
ghost use Rattle.ports.specs.Calls.{Changes};
ghost use Rattle.corner_forest.specs.Enters.{first_pages};
ghost use Rattle.page_warehouse.specs.Begun.{next_version, with_changes};
ghost use Rattle.page_warehouse.specs.Entering.{FormKeeps, KeepsOn, OldPagesKeep, PagesKeep, RootsFit, StayRoots};
ghost use Rattle.page_warehouse.specs.Needs.{StayOnePage, changes_need};

use crate::entering::enter_rows;
use crate::next_change::changes_go_on;
use crate::roots::Roots;
use bw_types::Row;
use corner_forest::laws::forest_laws;
use dom_index::DomIndex;
use object_table::{renew, table_laws};
use page_layout::footprint_laws;
use ports::{Stage, StageFault, changes_compose};
use std::alloc::Global;

// Writes the table anew by lives.
fn renew_table<X: DomIndex, S: Stage>(stage: &mut S, roots: &mut Roots) -> Result<(), StageFault>
    requires roots { RootsFit X.DIMS roots.old }
    ensures keeps_on { IsTrue (S.tells stage.old) → (h : History) → IsLawful roots.old.forest.params h → OldPagesKeep X.DomIndex (S.map stage.old) roots.old h
        → KeepsOn S.Pages (8 * roots.old.table.count) stage.old stage.new result (PagesKeep X.DomIndex (S.map stage.new) roots.new h) }
    ensures trees { roots.new.forest ≡ roots.old.forest }
    ensures roots { StayRoots X.DIMS roots.old roots.new result }
    ensures changes { Changes S.Pages (S.allotted stage.new + 1) stage.old stage.new result }
{
    table_laws();
    forest_laws::<X>();
    footprint_laws();
    changes_compose();
    changes_go_on();
    roots.table = renew(stage, &roots.table)?;
    Ok(())
}

/// Enters the rows of a batch, the first change of which has this event number, in a table of the earlier form where
/// `by_ids`; answers the number after the last change.
pub(crate) fn enter_batch<X: DomIndex, S: Stage>(
    alloc: Global,
    stage: &mut S,
    roots: &mut Roots,
    by_ids: bool,
    rows: &[Row],
    event: u32,
    version: u32,
) -> Result<u32, StageFault>
    requires roots { RootsFit X.DIMS roots.old }
    requires fit { IsTrue (list_all (row_fits roots.old.forest.params) rows.now) }
    requires event { event + length (flat rows.now) ≤ 2 ^ 28 }
    requires version { (1 ≤ version) × (version < 2 ^ 32 - 1) }
    ensures event { IfOk result (λ next. next ≡ event + length (flat rows.now)) }
    ensures keeps_on { IsTrue (S.tells stage.old) → (h : History) → IsLawful roots.old.forest.params h
        → IsLawfulBatch roots.old.forest.params h (flat rows.now) → version ≡ next_version h → event ≡ length (changes h)
        → FormKeeps X.DomIndex by_ids (S.map stage.old) roots.old h
        → KeepsOn S.Pages ((if by_ids then 8 * roots.old.table.count else 0) + changes_need roots.old.forest.params (length (changes h)) (length (flat rows.now))) stage.old stage.new result
        (PagesKeep X.DomIndex (S.map stage.new) roots.new (with_changes h (flat rows.now))) }
    ensures small { IsTrue (S.tells stage.old) → (h : History) → IsLawful roots.old.forest.params h
        → IsLawfulBatch roots.old.forest.params h (flat rows.now) → version ≡ next_version h → event ≡ length (changes h)
        → FormKeeps X.DomIndex by_ids (S.map stage.old) roots.old h
        → StayOnePage roots.old.forest.params (length (changes h) + length (flat rows.now)) roots.old.forest.roots.items
        → Changes S.Pages ((if by_ids then 8 * roots.old.table.count else 0) + (8 * length (flat rows.now) + first_pages roots.old.forest.params roots.old.forest.roots.items)) stage.old stage.new result }
    ensures roots { StayRoots X.DIMS roots.old roots.new result }
    ensures changes { Changes S.Pages (S.allotted stage.new + 1) stage.old stage.new result }
{
    if !by_ids {
        return enter_rows::<X, S>(alloc, stage, roots, rows, event, version);
    }
    renew_table::<X, S>(stage, roots)?;
    enter_rows::<X, S>(alloc, stage, roots, rows, event, version)
}
