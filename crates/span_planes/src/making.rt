//! Spans derived from a warehouse.
ghost use Rattle.std.specs.Prelude.{◌≡◌, ◌⊎◌, ◌≤◌, ℕ, true, IsTrue};
ghost use Rattle.bw_types.specs.History.{History};
ghost use Rattle.ports.specs.Count.{Rose};
ghost use Rattle.page_disk.specs.Since.{LeavesNow};
ghost use Rattle.page_warehouse.specs.Shown.{HasNewForm, HoldsHistory, disk_charge, disk_in, meta_in, params_in};
ghost use Rattle.page_space.specs.Shown.{IsInOrder, disk_of};
ghost use Rattle.warehouse.specs.Left.{IsAsBefore};
ghost use Rattle.span_planes.specs.Ended.{gathering_of};
ghost use Rattle.span_planes.specs.Made.{HoldsNoVersion, LeavesShown, LeavesSpans, MayTakeSpans, StaysReady, StaysThere, second_out};
ghost use Rattle.span_planes.specs.Readied.{IsSpaceOfNoVersion, StaysOpened};

use crate::readying::ready_space;
use crate::writing::{can_fill_all, write};
use dom_index::DomIndex;
use history_laws::lawful_histories_have_room;
use page_disk::Disk;
use page_space::{Space, created_holds, holds_one};
use page_warehouse::{GatherFault, Warehouse, gather};
use std::alloc::Global;

/// What became of a second disk that was to have the spans of a warehouse.
#[derive(Drop)]
pub enum Derived<E> {
    /// It has them, up to this version.
    Done { second: E, version: u32 },
    /// The second disk is not empty, and does not hold spans of no version of such a warehouse. It is as it was.
    AlreadyThere(E),
    /// As many pages are given out there as may be.
    PageLimit { second: E, allotted: u64 },
    /// This page is not as the program leaves it.
    Damaged { second: E, page: u64 },
    /// Memory ran out.
    NoMemory(E),
    /// One of the disks failed.
    Disk(E),
}

/// Writes the spans of a warehouse to a second disk, which is empty or holds spans of no version: all of them in one commit.
///
/// The house and its disk stay as they were. Unless it is done or the second disk failed, that stands for the same pages as before, or still
/// for none, or for new spans, whatever the first one holds. A second disk with anything else is as it was: it is read through its journal
/// first, and nothing is written to it. It takes memory for a list of all adds and withdrawals, for the points of one tree, and for the pages
/// of the trees, and before that 16 bytes, or up to twice that, for each image in a journal that is open on the second disk, and 8 bytes, or
/// up to twice that, for each of its free pages.
pub fn derive<D: Disk, X: DomIndex + Drop, E: Disk + Drop>(
    alloc: Global,
    house: &mut Warehouse<D, X>,
    second: E,
) -> Derived<E>
    ensures leaves { (h : History) → HoldsHistory D.Disk X.DomIndex true (disk_in house.old) (params_in house.old) h → IsTrue (E.tells second)
        → MayTakeSpans (params_in house.old) (E.image second) → LeavesSpans E.Disk X.DomIndex (params_in house.old) h second result }
    ensures ready { IsTrue (E.tells second) → MayTakeSpans (params_in house.old) (E.image second)
        → StaysReady E.Disk (params_in house.old) (meta_in house.old).version second result }
    ensures there { IsTrue (E.tells second) → (MayTakeSpans (params_in house.old) (E.image second) → ⊥) → StaysThere E.Disk second result }
    ensures version { (e : E) (version : ℕ) → result ≡ Derived.Done e version → version ≡ (meta_in house.old).version }
    ensures disk { (e : E) → result ≡ Derived.Disk e → Rose (D.faults (disk_in house.old)) (D.faults (disk_in house.new)) ⊎ Rose (E.faults second) (E.faults e) }
    ensures kept { IsAsBefore params_in disk_in (HoldsHistory D.Disk X.DomIndex) (HasNewForm D.Disk) D.tells D.image D.moments (disk_charge D.Disk) house.old house.new }
    ensures meta { meta_in house.new ≡ meta_in house.old }
    ensures faults { D.faults (disk_in house.old) ≤ D.faults (disk_in house.new) }
    ensures second_faults { E.faults second ≤ E.faults (second_out result) }
    ensures tells { E.tells (second_out result) ≡ E.tells second }
{
    created_holds();
    let params = house.params();
    match ready_space(alloc, second, &params) {
        Ok(space) => derive_to(alloc, house, space),
        Err(ended) => ended,
    }
}

// Writes the spans of the house to the space of spans of no version.
fn derive_to<D: Disk, X: DomIndex + Drop, E: Disk + Drop>(
    alloc: Global,
    house: &mut Warehouse<D, X>,
    space: Space<E>,
) -> Derived<E>
    requires none { IsSpaceOfNoVersion (params_in house.old) space }
    requires ordered { IsTrue (E.tells (disk_of space)) → IsInOrder space }
    requires settled { LeavesNow (E.moments (disk_of space)) (E.image (disk_of space)) }
    ensures leaves { (h : History) → HoldsHistory D.Disk X.DomIndex true (disk_in house.old) (params_in house.old) h → IsTrue (E.tells (disk_of space))
        → LeavesSpans E.Disk X.DomIndex (params_in house.old) h (disk_of space) result }
    ensures shown { IsTrue (E.tells (disk_of space)) → LeavesShown E.Disk (params_in house.old) (meta_in house.old).version (disk_of space) result }
    ensures opened { StaysOpened E.Disk (params_in house.old) (disk_of space) result }
    ensures version { (e : E) (version : ℕ) → result ≡ Derived.Done e version → version ≡ (meta_in house.old).version }
    // Where there is no version, the disk is as it was.
    ensures none { (e : E) → result ≡ Derived.Done e 0 → IsTrue (E.tells (disk_of space))
        → HoldsNoVersion (params_in house.old) (E.image e) × (E.image e ≡ E.image (disk_of space)) }
    ensures disk { (e : E) → result ≡ Derived.Disk e → Rose (D.faults (disk_in house.old)) (D.faults (disk_in house.new)) ⊎ Rose (E.faults (disk_of space)) (E.faults e) }
    ensures kept { IsAsBefore params_in disk_in (HoldsHistory D.Disk X.DomIndex) (HasNewForm D.Disk) D.tells D.image D.moments (disk_charge D.Disk) house.old house.new }
    ensures meta { meta_in house.new ≡ meta_in house.old }
    ensures faults { D.faults (disk_in house.old) ≤ D.faults (disk_in house.new) }
    ensures second_faults { E.faults (disk_of space) ≤ E.faults (second_out result) }
    ensures tells { E.tells (second_out result) ≡ E.tells (disk_of space) }
{
    X::index_laws();
    lawful_histories_have_room();
    holds_one();
    space.is_held();
    let params = house.params();
    let last = house.last();
    if last == 0 {
        // It holds the spans of no version.
        return Derived::Done {
            second: space.into_disk(),
            version: 0,
        };
    }
    match gather(alloc, house) {
        Ok(events) if can_fill_all(&params, &events) => {
            write::<X, E>(alloc, space, &params, &events, last)
        }
        Ok(_) => Derived::Damaged {
            second: space.into_disk(),
            page: 2,
        },
        Err(fault) => ended(fault, space.into_disk()),
    }
}

// How a derivation ends where no events were gathered.
fn ended<E: Disk>(fault: GatherFault, second: E) -> Derived<E>
    ensures { result ≡ gathering_of fault second }
{
    match fault {
        GatherFault::Disk => Derived::Disk(second),
        GatherFault::Damaged(page) => Derived::Damaged { second, page },
        GatherFault::NoMemory => Derived::NoMemory(second),
    }
}
