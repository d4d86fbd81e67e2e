//! A second warehouse, with the history from a version on.
ghost use Rattle.std.specs.Prelude.{◌≡◌, ◌≢◌, ◌⊎◌, ◌<◌, ◌≤◌, ℕ, true, IsTrue};
ghost use Rattle.bw_types.specs.History.{History, last_version};
ghost use Rattle.ports.specs.Count.{Rose};
ghost use Rattle.page_warehouse.specs.Shown.{HasNewForm, HoldsHistory, disk_charge, disk_in, meta_in, params_in};
ghost use Rattle.redo_journal.specs.Gates.{is_empty};
ghost use Rattle.warehouse.specs.Left.{IsAsBefore};
ghost use Rattle.compact_store.specs.Compacted.{LeavesPart, LeavesSome, StaysWhereFull, second_out};
ghost use Rattle.compact_store.specs.Ended.{ended_of};
ghost use Rattle.compact_store.specs.Kept.{kept};
ghost use Rattle.compact_store.specs.Putting.{IsReady, is_written};

use crate::filling::fill;
use crate::keeping::{events_after, gather_kept};
use dom_index::DomIndex;
use page_disk::Disk;
use page_warehouse::{Created, GatherFault, Warehouse, create, created_holds};
use std::alloc::Global;

/// What became of a second disk that was to have a history from a version on.
#[derive(Drop)]
pub enum Compacted<E> {
    /// It has the history, of so many adds and withdrawals.
    Done { second: E, rows: u32 },
    /// The version is above the last one, which is this. The second disk was not called.
    NoVersion { second: E, last: u32 },
    /// The second disk has a warehouse, or what is none, already. It is as before.
    AlreadyThere(E),
    /// As many pages are given out there as may be.
    PageLimit { second: E, allotted: u64 },
    /// This page is not as the program leaves it.
    Damaged { second: E, page: u64 },
    /// Memory ran out.
    NoMemory(E),
    /// One of the disks failed.
    Disk(E),
}

/// Makes a warehouse on an empty second disk, with the history of the house from this version on: as many versions, of which those up to
/// it add the objects that are live there. From that version on it answers each query alike ([`kept_laws`](crate::kept_laws)).
///
/// The house and its disk stay as they were. Where it ends early the second disk is empty or has a first part of that history.
/// `Damaged` comes with the number of the meta page where the adds and withdrawals of the table are not those of a history with its numbers,
/// or cannot be put as the batches of one.
/// It takes as much memory as lists of all lives and events of the house.
pub fn compact<D: Disk, X: DomIndex + Drop, E: Disk + Drop>(
    alloc: Global,
    house: &mut Warehouse<D, X>,
    version: u32,
    second: E,
) -> Compacted<E>
    ensures leaves { (h : History) → HoldsHistory D.Disk X.DomIndex true (disk_in house.old) (params_in house.old) h → version ≤ last_version h
        → IsTrue (E.tells second) → is_empty (E.image second) ≡ true → LeavesPart E.Disk X.DomIndex (params_in house.old) (kept h version) second result }
    // Whatever the disk of the house holds.
    ensures some { version ≤ (meta_in house.old).version → IsTrue (E.tells second) → is_empty (E.image second) ≡ true
        → LeavesSome E.Disk X.DomIndex (params_in house.old) (meta_in house.old) version second result }
    ensures sound { (h : History) (e : E) (page : ℕ) → HoldsHistory D.Disk X.DomIndex true (disk_in house.old) (params_in house.old) h → version ≤ last_version h
        → IsTrue (E.tells second) → is_empty (E.image second) ≡ true → result ≢ Compacted.Damaged e page }
    ensures full { StaysWhereFull E.Disk second result }
    ensures no_version { (e : E) (last : ℕ) → result ≡ Compacted.NoVersion e last → (last ≡ (meta_in house.old).version) × (last < version) × (e ≡ second) }
    ensures above { (meta_in house.old).version < version → result ≡ Compacted.NoVersion second (meta_in house.old).version }
    ensures disk { (e : E) → result ≡ Compacted.Disk e → Rose (D.faults (disk_in house.old)) (D.faults (disk_in house.new)) ⊎ Rose (E.faults second) (E.faults e) }
    ensures kept { IsAsBefore params_in disk_in (HoldsHistory D.Disk X.DomIndex) (HasNewForm D.Disk) D.tells D.image D.moments (disk_charge D.Disk) house.old house.new }
    ensures meta { meta_in house.new ≡ meta_in house.old }
    ensures faults { D.faults (disk_in house.old) ≤ D.faults (disk_in house.new) }
    ensures second_faults { E.faults second ≤ E.faults (second_out result) }
    ensures tells { E.tells (second_out result) ≡ E.tells second }
{
    created_holds::<X>();
    let last = house.last();
    if last < version {
        return Compacted::NoVersion { second, last };
    }
    match create(second, &house.params()) {
        Created::Done(second) => compact_to(alloc, house, version, last, second),
        Created::AlreadyThere(second) => Compacted::AlreadyThere(second),
        Created::Disk(second) => Compacted::Disk(second),
    }
}

// Writes the history of the house from a version on to a disk that has a new warehouse.
fn compact_to<D: Disk, X: DomIndex + Drop, E: Disk + Drop>(
    alloc: Global,
    house: &mut Warehouse<D, X>,
    version: u32,
    last: u32,
    second: E,
) -> Compacted<E>
    requires versions { version ≤ last }
    requires last { last ≡ (meta_in house.old).version }
    ensures leaves { (h : History) (start : E) → HoldsHistory D.Disk X.DomIndex true (disk_in house.old) (params_in house.old) h → last ≡ last_version h
        → IsReady E.Disk X.DomIndex (params_in house.old) start second → LeavesPart E.Disk X.DomIndex (params_in house.old) (kept h version) start result }
    ensures some { (start : E) → IsReady E.Disk X.DomIndex (params_in house.old) start second → LeavesSome E.Disk X.DomIndex (params_in house.old) (meta_in house.old) version start result }
    ensures sound { (h : History) (start e : E) (page : ℕ) → HoldsHistory D.Disk X.DomIndex true (disk_in house.old) (params_in house.old) h → last ≡ last_version h
        → IsReady E.Disk X.DomIndex (params_in house.old) start second → result ≢ Compacted.Damaged e page }
    ensures written { IsTrue (is_written result) }
    ensures disk { (e : E) → result ≡ Compacted.Disk e → Rose (D.faults (disk_in house.old)) (D.faults (disk_in house.new)) ⊎ Rose (E.faults second) (E.faults e) }
    ensures kept { IsAsBefore params_in disk_in (HoldsHistory D.Disk X.DomIndex) (HasNewForm D.Disk) D.tells D.image D.moments (disk_charge D.Disk) house.old house.new }
    ensures meta { meta_in house.new ≡ meta_in house.old }
    ensures faults { D.faults (disk_in house.old) ≤ D.faults (disk_in house.new) }
    ensures second_faults { E.faults second ≤ E.faults (second_out result) }
    ensures tells { E.tells (second_out result) ≡ E.tells second }
{
    match gather_kept(alloc, house, version) {
        Ok(kept) => {
            let later = events_after(version, &kept.events);
            fill::<E, X>(alloc, second, &kept.adds, later, version, last)
        }
        Err(fault) => ended(fault, second),
    }
}

// How a compaction ends where nothing was gathered.
fn ended<E: Disk>(fault: GatherFault, second: E) -> Compacted<E>
    ensures { result ≡ ended_of fault second }
{
    match fault {
        GatherFault::Disk => Compacted::Disk(second),
        GatherFault::Damaged(page) => Compacted::Damaged { second, page },
        GatherFault::NoMemory => Compacted::NoMemory(second),
    }
}
