//! The opening of a warehouse.
ghost use Rattle.std.specs.Prelude.{◌≡◌, ◌+◌, ◌≤◌, true, false, length, IsTrue, IfOk, IfErr};
ghost use Rattle.bw_types.specs.History.{History};
ghost use Rattle.bw_types.specs.declared.params.Params.{Params};
ghost use Rattle.page_disk.specs.Calls.{WritesAsTold};
ghost use Rattle.page_disk.specs.Image.{PageList};
ghost use Rattle.page_disk.specs.Since.{LeavesOnly};
ghost use Rattle.redo_journal.specs.Settled.{SettlesTo};
ghost use Rattle.page_space.specs.Faults.{is_disk};
ghost use Rattle.page_space.specs.Opened.{StaysAsRead};
ghost use Rattle.page_space.specs.Settling.{HasNoReplay, replay_reads};
ghost use Rattle.page_warehouse.specs.Opened.{GoTogether, IsOpenedFrom, IsRefusedFor, opened_disk};
ghost use Rattle.corner_forest.specs.Entries.{root_count};
ghost use Rattle.page_warehouse.specs.Holds.{Holds};
ghost use Rattle.page_warehouse.specs.Shown.{disk_in};

use crate::state::Warehouse;
use arrayvec::ArrayVec;
use bw_types::{Params, Tree};
use corner_forest::Forest;
use dom_index::DomIndex;
use history_laws::lawful_histories_have_room;
use page_disk::Disk;
use page_layout::Meta;
use page_space::{OpenFault, OpenRefused, Space, held_opens, holds_one};
use redo_journal::settling_laws;
use std::alloc::Global;
use std::marker::PhantomData;

/// The total mass of a warehouse stays below this.
const MASS_LIMIT: u128 = 1 << 126;

// Whether the numbers of the meta page go together.
fn goes_together(params: &Params, meta: &Meta, roots: usize) -> bool
    requires { roots ≡ root_count params.now }
    ensures yes { result ≡ true → GoTogether params.now meta.now }
    ensures no { result ≡ false → GoTogether params.now meta.now → ⊥ }
{
    meta.roots.len() == roots
        && u64::from(meta.version) + u64::from(meta.rows) == u64::from(meta.events)
        && meta.events <= params.events
        && meta.mass < MASS_LIMIT
}

// The roots as a forest keeps them.
pub(crate) fn copied(trees: &[Tree]) -> ArrayVec<Tree, 96>
    requires { length trees.now ≤ 96 }
    ensures { result.items ≡ trees.now }
{
    let mut copies = ArrayVec::new();
    for root in trees {
        copies.push(*root);
    }
    copies
}

impl<D: Disk, X: DomIndex> Warehouse<D, X> {
    /// Opens the warehouse on a disk. A refusal hands the disk back.
    ///
    /// The disk is synced, and its journal is replayed where that is open. The faults are those of a space, and
    /// then `Damaged` with 1 where the warehouse has more dimensions than the index, and else with 2 where the
    /// numbers of the meta page do not go together: as many roots as its params ask for, each add, withdrawal
    /// and version an event, no more events than allowed, and a mass below `2^126`. A disk that holds a history
    /// is refused only where the device fails or there is no memory. A crash at any moment leaves a disk that
    /// holds the same history. Four reads at most, and as many more for a replay as twice the journal has pages.
    pub fn open_on(alloc: Global, disk: D) -> Result<Warehouse<D, X>, OpenRefused<D>>
        ensures opened { IfOk result (λ w. IsOpenedFrom D.Disk X.DomIndex disk w) }
        ensures refused { IfErr result (λ refused. IsRefusedFor D.Disk X.DomIndex disk refused.fault refused.disk) }
        ensures any_moment { IsTrue (D.tells disk) → (params : Params) (h : History) → Holds X.DomIndex (D.image disk) params h
            → LeavesOnly (λ x. Holds X.DomIndex x params h) (D.moments disk) (D.moments (opened_disk disk_in result)) }
        // Whatever the disk held, it stands for the same pages at each moment.
        ensures stands_on { IsTrue (D.tells disk) → (pages : PageList) → SettlesTo (D.image disk) pages
            → LeavesOnly (λ x. SettlesTo x pages) (D.moments disk) (D.moments (opened_disk disk_in result)) }
        // Where nothing is replayed, the disk is as it was.
        ensures untouched { IsTrue (D.tells disk) → HasNoReplay (D.image disk) → StaysAsRead D.Disk disk (opened_disk disk_in result) }
        ensures writes { WritesAsTold D.Disk (λ refused. is_disk refused.fault) (4 + replay_reads (D.image disk)) disk (opened_disk disk_in result) result }
    {
        // A disk stands for one list of pages, and one space.
        settling_laws();
        holds_one();
        held_opens();
        lawful_histories_have_room();
        let space = match Space::open_on(alloc, disk) {
            Ok(space) => space,
            Err(refused) => return Err(refused),
        };
        space.is_held();
        let params = space.params();
        if params.dims > X::DIMS {
            return Err(OpenRefused {
                fault: OpenFault::Damaged(1),
                disk: space.into_disk(),
            });
        }
        let mut forest = Forest::new(&params);
        if !goes_together(&params, space.meta(), forest.roots.len()) {
            return Err(OpenRefused {
                fault: OpenFault::Damaged(2),
                disk: space.into_disk(),
            });
        }
        forest.roots = copied(space.meta().roots.as_slice());
        Ok(Warehouse {
            alloc,
            space,
            forest,
            index: PhantomData,
        })
    }
}
