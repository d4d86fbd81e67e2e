//! The opening of spans.
ghost use Rattle.std.specs.Prelude.{◌≡◌, ◌+◌, ◌*◌, ◌^◌, ◌≤◌, length, IsTrue, IfOk, IfErr};
ghost use Rattle.bw_types.specs.History.{History};
ghost use Rattle.bw_types.specs.declared.params.Params.{Params};
ghost use Rattle.page_disk.specs.Calls.{WritesAsTold};
ghost use Rattle.page_disk.specs.Image.{PageList};
ghost use Rattle.page_disk.specs.Since.{LeavesOnly};
ghost use Rattle.redo_journal.specs.Settled.{SettlesTo};
ghost use Rattle.page_space.specs.Faults.{is_disk};
ghost use Rattle.page_space.specs.Opened.{StaysAsRead};
ghost use Rattle.page_space.specs.Settling.{HasNoReplay, replay_reads};
ghost use Rattle.page_warehouse.specs.Opened.{opened_disk};
ghost use Rattle.span_planes.specs.Opened.{IsOpenedFrom, IsRefusedFor};
ghost use Rattle.span_planes.specs.Shown.{disk_in};
ghost use Rattle.span_planes.specs.SpanHolds.{SpanHolds};

use crate::Spans;
use arrayvec::ArrayVec;
use bw_types::Tree;
use dom_index::DomIndex;
use page_disk::Disk;
use page_space::{OpenFault, OpenRefused, Space, held_opens, holds_one};
use redo_journal::settling_laws;
use std::alloc::Global;
use std::marker::PhantomData;

// How many trees spans of so many dimensions have: two for each subset of them.
pub(crate) fn root_count(dims: u8) -> usize
    requires some { 1 ≤ dims }
    requires few { dims ≤ 3 }
    ensures { result ≡ 2 * 2 ^ dims }
{
    match dims {
        1 => 4,
        2 => 8,
        _ => 16,
    }
}

// The roots as spans keep them.
fn copied(trees: &[Tree]) -> ArrayVec<Tree, 96>
    requires { length trees.now ≤ 96 }
    ensures { result.items ≡ trees.now }
{
    let mut copies = ArrayVec::new();
    for root in trees {
        copies.push(*root);
    }
    copies
}

impl<E: Disk, X: DomIndex> Spans<E, X> {
    /// Opens the spans on a disk. A refusal hands the disk back.
    ///
    /// The disk is synced, and its journal is replayed where that is open. The faults are those of a space, and then `Damaged` with 1 where
    /// the spans have more dimensions than the index, and else with 2 where the meta page has events or another number of trees. A disk that
    /// holds spans is refused only where the device fails or there is no memory. A crash at any moment leaves a disk that holds the same
    /// spans. Four reads at most, and as many more for a replay as twice the journal has pages.
    pub fn open_on(alloc: Global, disk: E) -> Result<Spans<E, X>, OpenRefused<E>>
        ensures opened { IfOk result (λ spans. IsOpenedFrom E.Disk X.DomIndex disk spans) }
        ensures refused { IfErr result (λ refused. IsRefusedFor E.Disk X.DomIndex disk refused.fault refused.disk) }
        ensures any_moment { IsTrue (E.tells disk) → (params : Params) (h : History) → SpanHolds X.DomIndex (E.image disk) params h
            → LeavesOnly (λ x. SpanHolds X.DomIndex x params h) (E.moments disk) (E.moments (opened_disk disk_in result)) }
        // Whatever the disk held, it stands for the same pages at each moment.
        ensures stands_on { IsTrue (E.tells disk) → (pages : PageList) → SettlesTo (E.image disk) pages
            → LeavesOnly (λ x. SettlesTo x pages) (E.moments disk) (E.moments (opened_disk disk_in result)) }
        // Where nothing is replayed, the disk is as it was.
        ensures untouched { IsTrue (E.tells disk) → HasNoReplay (E.image disk) → StaysAsRead E.Disk disk (opened_disk disk_in result) }
        ensures writes { WritesAsTold E.Disk (λ refused. is_disk refused.fault) (4 + replay_reads (E.image disk)) disk (opened_disk disk_in result) result }
    {
        // A disk stands for one list of pages, and one space.
        settling_laws();
        holds_one();
        held_opens();
        let space = match Space::open_on(alloc, disk) {
            Ok(space) => space,
            Err(refused) => return Err(refused),
        };
        space.is_held();
        let dims = space.params().dims;
        if dims > X::DIMS {
            return Err(OpenRefused {
                fault: OpenFault::Damaged(1),
                disk: space.into_disk(),
            });
        }
        if space.meta().events != 0 || space.meta().roots.len() != root_count(dims) {
            return Err(OpenRefused {
                fault: OpenFault::Damaged(2),
                disk: space.into_disk(),
            });
        }
        let roots = copied(space.meta().roots.as_slice());
        Ok(Spans {
            space,
            roots,
            index: PhantomData,
        })
    }
}
