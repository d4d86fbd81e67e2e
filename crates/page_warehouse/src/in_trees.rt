//! The entries of a batch in the trees, once its changes are in the table.
ghost use Rattle.std.specs.Prelude.{ℕ, ◌+◌, ◌-◌, ◌*◌, ◌^◌, ◌<◌, ◌≤◌, length, IsTrue};
ghost use Rattle.std.specs.List.{All};
ghost use Rattle.bw_types.specs.History.{History};
ghost use Rattle.ports.specs.Calls.{Changes};
ghost use Rattle.corner_forest.specs.Enters.{first_pages};
ghost use Rattle.history_laws.specs.Entries.{history_entries};
ghost use Rattle.page_warehouse.specs.Growth.{most_growth};
ghost use Rattle.page_warehouse.specs.Entering.{KeepsOn, PagesKeep, PagesWait, RootsFit, StayRoots};
ghost use Rattle.page_warehouse.specs.Needs.{StayOnePage};
ghost use Rattle.page_warehouse.specs.Waiting.{CanWait};

use crate::next_change::growth_is_bounded;
use crate::roots::Roots;
use crate::waiting::Waiting;
use corner_forest::enter as enter_forest;
use corner_forest::laws::forest_laws;
use dom_index::DomIndex;
use object_table::table_laws;
use page_layout::footprint_laws;
use ports::{Stage, StageFault, changes_compose};
use std::alloc::Global;

/// Enters what waits, in its order.
pub(crate) fn enter_trees<X: DomIndex, S: Stage>(
    alloc: Global,
    stage: &mut S,
    roots: &mut Roots,
    waiting: &[Waiting],
    version: u32,
) -> Result<(), StageFault>
    requires roots { RootsFit X.DIMS roots.old }
    requires waiting { All (CanWait roots.old.forest.params) waiting.now }
    requires version { version < 2 ^ 32 - 1 }
    ensures keeps_on { IsTrue (S.tells stage.old) → (h : History) (most : ℕ) → length (history_entries h) ≤ most
        → PagesWait X.DomIndex (S.map stage.old) roots.old version h waiting.now
        → KeepsOn S.Pages (length waiting.now * most_growth roots.old.forest.params most) stage.old stage.new result
        (PagesKeep X.DomIndex (S.map stage.new) roots.new h) }
    ensures small { IsTrue (S.tells stage.old) → (h : History) (most : ℕ) → length (history_entries h) ≤ most
        → PagesWait X.DomIndex (S.map stage.old) roots.old version h waiting.now
        → StayOnePage roots.old.forest.params most roots.old.forest.roots.items
        → Changes S.Pages (first_pages roots.old.forest.params roots.old.forest.roots.items) stage.old stage.new result }
    ensures roots { StayRoots X.DIMS roots.old roots.new result }
    ensures changes { Changes S.Pages (S.allotted stage.new + 1) stage.old stage.new result }
{
    table_laws();
    forest_laws::<X>();
    footprint_laws();
    changes_compose();
    growth_is_bounded();
    enter_forest::<X, S>(alloc, stage, &mut roots.forest, waiting, version)
}
