//! Batches that are put on a second disk, one after the other.
ghost use Rattle.std.specs.Prelude.{◌≡◌, ◌∷◌, ◌-◌, ◌+◌, ◌≤◌, [], List, map};
ghost use Rattle.bw_types.specs.Lawful.{staged_rows};
ghost use Rattle.bw_types.specs.declared.change.Change.{Change};
ghost use Rattle.page_warehouse.specs.Batches.{batches_from};
ghost use Rattle.page_warehouse.specs.Events.{change_in};
ghost use Rattle.page_warehouse.specs.Shown.{disk_in};
ghost use Rattle.compact_store.specs.Cuts.{batches_by_size};
ghost use Rattle.compact_store.specs.Putting.{Puts, outcome_of};

use crate::Compacted;
use crate::staging::{rows_fit, stage};
use bw_types::Row;
use dom_index::DomIndex;
use page_disk::Disk;
use page_warehouse::{Event, Warehouse, count_of};
use std::alloc::Global;
use warehouse::{Committed, House};

/// The house with one batch more, or how the compaction ends there.
type Put<E, X> = Result<Warehouse<E, X>, Compacted<E>>;

/// Puts a batch a version, for so many versions, each of the next 4096 events.
pub(crate) fn put_by_size<E: Disk + Drop, X: DomIndex + Drop>(
    alloc: Global,
    house: Warehouse<E, X>,
    events: &[Event],
    count: u32,
) -> Put<E, X>
    ensures { Puts E.Disk X.DomIndex (batches_by_size count events.now) house result }
{
    let mut house = house;
    let mut rows = Vec::new(alloc);
    let mut later = events;
    for _ in 0..count {
        let (batch, rest) = later.split_at(later.len().min(4096));
        house = match put_batch(house, batch, &mut rows) {
            Ok(house) => house,
            Err(ended) => return Err(ended),
        };
        later = rest;
    }
    Ok(house)
}

/// Puts the batches of the versions after the first and up to the last, each of the events that follow those of the batch before it.
pub(crate) fn put_versions<E: Disk + Drop, X: DomIndex + Drop>(
    alloc: Global,
    house: Warehouse<E, X>,
    events: &[Event],
    first: u32,
    last: u32,
) -> Put<E, X>
    requires { first ≤ last }
    ensures { Puts E.Disk X.DomIndex (batches_from (first + 1) (last - first) events.now) house result }
{
    let mut house = house;
    let mut rows = Vec::new(alloc);
    let mut later = events;
    for before in first..last {
        let (batch, rest) = later.split_at(count_of(before + 1, later));
        house = match put_batch(house, batch, &mut rows) {
            Ok(house) => house,
            Err(ended) => return Err(ended),
        };
        later = rest;
    }
    Ok(house)
}

// Puts the batch of these events. The rows that stage it take the place of those that were there.
fn put_batch<E: Disk + Drop, X: DomIndex + Drop>(
    house: Warehouse<E, X>,
    events: &[Event],
    rows: &mut Vec<Row>,
) -> Put<E, X>
    ensures { Puts E.Disk X.DomIndex (map change_in events.now ∷ []) house result }
{
    match stage(events, rows) {
        Ok(()) => put_rows(house, rows),
        Err(_) => Err(Compacted::NoMemory(house.into_disk())),
    }
}

// Puts the batch that these rows stage. Where the house has a first part of a lawful history they fit, and are not refused.
fn put_rows<E: Disk + Drop, X: DomIndex + Drop>(house: Warehouse<E, X>, rows: &[Row]) -> Put<E, X>
    ensures { (batch : List Change) → rows.now ≡ staged_rows batch → Puts E.Disk X.DomIndex (batch ∷ []) house result }
{
    if rows.len() > 4096 || !rows_fit(&house.params(), rows) {
        return Err(Compacted::Damaged {
            second: house.into_disk(),
            page: 2,
        });
    }
    outcome(house.commit(rows))
}

// The house after a commit that put the batch, or how the compaction ends.
fn outcome<E: Disk + Drop, X: DomIndex + Drop>(
    committed: Committed<Warehouse<E, X>, E>,
) -> Put<E, X>
    ensures { result ≡ outcome_of disk_in committed }
{
    match committed {
        Committed::Done { house, version: _ } => Ok(house),
        Committed::Refused { house, refusal: _ } => Err(Compacted::Damaged {
            second: house.into_disk(),
            page: 2,
        }),
        Committed::PageLimit { house, allotted } => Err(Compacted::PageLimit {
            second: house.into_disk(),
            allotted,
        }),
        Committed::NoMemory { house } => Err(Compacted::NoMemory(house.into_disk())),
        Committed::Damaged { house, page } => Err(Compacted::Damaged {
            second: house.into_disk(),
            page,
        }),
        Committed::Disk { device } => Err(Compacted::Disk(device)),
    }
}
