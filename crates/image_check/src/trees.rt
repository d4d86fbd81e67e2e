//! The trees of a disk, and the pages that are in one place each.
ghost use Rattle.std.specs.Prelude.{◌≡◌, ◌↔◌, ◌++◌, true, Ok, IsTrue, IfOk};
ghost use Rattle.bw_types.specs.Fits.{IsInRange};
ghost use Rattle.page_layout.specs.Footprint.{NamesNoneTwice};
ghost use Rattle.object_table.specs.Lives.{table_pages};
ghost use Rattle.history_laws.specs.Entries.{entries_of};
ghost use Rattle.corner_forest.specs.Stands.{AreBalanced, ForestStands, forest_pages};
ghost use Rattle.page_warehouse.specs.Holds.{table_form};
ghost use Rattle.image_check.specs.Reading.{AreItsPages};
ghost use Rattle.settled_pages.specs.Looked.{IsInOrder, disk_of, looked_at, map_of};
ghost use Rattle.image_check.specs.Looks.{OnlyLooks};
ghost use Rattle.image_check.specs.Trees.{TreesAreSound};

use crate::checked_index::CheckedIndex;
use crate::forest::forest_stands;
use crate::reading::FoundTable;
use bw_types::{Dated, Params};
use page_checks::{CheckFault, name_none_twice};
use page_disk::Disk;
use page_layout::Meta;
use settled_pages::{LookFault, SettledSpace};
use std::alloc::Global;

/// Whether the trees stand for these lives and are balanced, no page is both in them twice or in them and in the table, and the
/// free pages are in order.
pub(crate) fn trees_stand<X: CheckedIndex, D: Disk>(
    alloc: Global,
    space: &mut SettledSpace<'_, D>,
    params: &Params,
    meta: &Meta,
    table: FoundTable,
) -> Result<bool, CheckFault>
    requires range { IsInRange params.now }
    requires once { IsTrue (D.tells (disk_of space.old)) → NamesNoneTwice (table_pages (table_form meta.now) (map_of space.old) meta.now.table) }
    requires pages { IsTrue (D.tells (disk_of space.old)) → AreItsPages (table_form meta.now) (map_of space.old) meta.now.table table.pages.items }
    ensures stands { IfOk result (λ stands. IsTrue (D.tells (disk_of space.old))
        → IsTrue stands ↔ TreesAreSound X.DomIndex params.now meta.now (map_of space.old) (IsInOrder space.old) (entries_of table.lives.items)) }
    ensures looked { looked_at space.new ≡ looked_at space.old }
    ensures looks { OnlyLooks D.Disk (disk_of space.old) (disk_of space.new) result }
{
    if params.dims > X::DIMS {
        return Ok(false);
    }
    let FoundTable { lives, pages } = table;
    let mut named = pages;
    if !forest_stands::<X, SettledSpace<'_, D>>(
        alloc,
        space,
        params,
        meta.roots.as_slice(),
        lives.as_slice(),
        &mut named,
    )? {
        return Ok(false);
    }
    if !name_none_twice(named.as_mut_slice()) {
        return Ok(false);
    }
    match space.free_pages(alloc) {
        Ok(chain) => Ok(chain.is_some()),
        Err(LookFault::Disk) => Err(CheckFault::Disk),
        Err(LookFault::NoMemory) => Err(CheckFault::NoMemory),
    }
}
