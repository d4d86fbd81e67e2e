//! A second disk with a new warehouse, to which a history is written.
ghost use Rattle.std.specs.Prelude.{◌≡◌, ◌≢◌, ◌+◌, ◌<◌, ◌≤◌, ◌^◌, ℕ, IsTrue, length};
ghost use Rattle.bw_types.specs.History.{changes};
ghost use Rattle.bw_types.specs.Lawful.{IsLawful};
ghost use Rattle.bw_types.specs.declared.params.Params.{Params};
ghost use Rattle.ports.specs.Count.{Rose};
ghost use Rattle.compact_store.specs.Compacted.{LeavesPart, second_out};
ghost use Rattle.compact_store.specs.Cuts.{batches_of};
ghost use Rattle.compact_store.specs.Ended.{refusal_of};
ghost use Rattle.compact_store.specs.Putting.{IsReady, Puts, is_written};

use crate::Compacted;
use crate::keeping::row_count;
use crate::putting::{put_by_size, put_versions};
use dom_index::DomIndex;
use page_disk::Disk;
use page_space::{OpenFault, OpenRefused};
use page_warehouse::{Event, Warehouse, holding_laws};
use std::alloc::Global;

/// Writes a history to a disk that has a new warehouse: so many batches of the adds, 4096 each, and then those of the later events.
pub(crate) fn fill<E: Disk + Drop, X: DomIndex + Drop>(
    alloc: Global,
    second: E,
    adds: &[Event],
    later: &[Event],
    version: u32,
    last: u32,
) -> Compacted<E>
    requires versions { version ≤ last }
    requires room { length adds.now + length later.now < 2 ^ 32 }
    requires all { length adds.now + length later.now ≡ length (changes (batches_of version last adds.now later.now)) }
    ensures leaves { (params : Params) (start : E) → IsReady E.Disk X.DomIndex params start second
        → LeavesPart E.Disk X.DomIndex params (batches_of version last adds.now later.now) start result }
    ensures sound { (params : Params) (start e : E) (page : ℕ) → IsReady E.Disk X.DomIndex params start second
        → IsLawful params (batches_of version last adds.now later.now) → result ≢ Compacted.Damaged e page }
    ensures written { IsTrue (is_written result) }
    ensures disk { (e : E) → result ≡ Compacted.Disk e → Rose (E.faults second) (E.faults e) }
    ensures faults { E.faults second ≤ E.faults (second_out result) }
    ensures tells { E.tells (second_out result) ≡ E.tells second }
{
    holding_laws::<X>();
    let house = match Warehouse::<E, X>::open_on(alloc, second) {
        Ok(house) => house,
        Err(refused) => return refusal(refused),
    };
    match put_all(alloc, house, adds, later, version, last) {
        Ok(house) => Compacted::Done {
            second: house.into_disk(),
            rows: row_count(adds, later),
        },
        Err(ended) => ended,
    }
}

// How a compaction ends where the new warehouse was not opened.
fn refusal<E: Disk>(refused: OpenRefused<E>) -> Compacted<E>
    ensures { result ≡ refusal_of refused.fault refused.disk }
{
    let OpenRefused { fault, disk } = refused;
    match fault {
        OpenFault::Disk => Compacted::Disk(disk),
        OpenFault::Empty => Compacted::Damaged {
            second: disk,
            page: 0,
        },
        OpenFault::Damaged(page) | OpenFault::BadJournal(page) => {
            Compacted::Damaged { second: disk, page }
        }
        OpenFault::NoMemory => Compacted::NoMemory(disk),
    }
}

// Puts the batches of the adds, and then those of the later events.
fn put_all<E: Disk + Drop, X: DomIndex + Drop>(
    alloc: Global,
    house: Warehouse<E, X>,
    adds: &[Event],
    later: &[Event],
    version: u32,
    last: u32,
) -> Result<Warehouse<E, X>, Compacted<E>>
    requires { version ≤ last }
    ensures { Puts E.Disk X.DomIndex (batches_of version last adds.now later.now) house result }
{
    match put_by_size(alloc, house, adds, version) {
        Ok(house) => put_versions(alloc, house, later, version, last),
        Err(ended) => Err(ended),
    }
}
