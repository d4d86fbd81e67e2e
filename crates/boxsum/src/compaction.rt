//! `compact`: the history of a warehouse from a version on, on a second disk.
ghost use Rattle.std.specs.Prelude.{◌≡◌, IfOk};
ghost use Rattle.compact_store.specs.Compacted.{second_out};
ghost use Rattle.boxsum.specs.Compacting.{EndsAs, PutsCompacted, compacted_line as line_of};
ghost use Rattle.boxsum.specs.Ran.{Compacts};

use crate::printing::put_line;
use crate::status::{RanTwo, Status};
use compact_store::{Compacted, compact, kept_laws};
use dom_index::DomIndex;
use page_disk::{Area, Disk};
use page_space::{held_opens, holds_one};
use page_warehouse::{Warehouse, holding_laws};
use ports::Sink;
use redo_journal::settling_laws;
use std::alloc::{AllocError, Global};

/// Opens the warehouse on the first disk, writes its history from the version on to the second, and prints what that has.
pub(crate) fn compact_on<X: DomIndex + Drop, D: Disk + Drop, E: Disk + Drop, K: Sink>(
    alloc: Global,
    disk: D,
    second: E,
    version: u32,
    sink: &mut K,
) -> RanTwo<D, E>
    ensures compacts { Compacts D.Disk E.Disk K.Sink X.DomIndex disk second sink.old sink.new result version }
{
    settling_laws();
    holds_one();
    held_opens();
    holding_laws::<X>();
    kept_laws();
    let mut house = match Warehouse::<D, X>::open_on(alloc, disk) {
        Ok(house) => house,
        Err(refused) => {
            return RanTwo {
                status: Status::from(refused.fault),
                disk: refused.disk,
                second,
            };
        }
    };
    let last = house.last();
    let compacted = compact::<D, X, E>(alloc, &mut house, version, second);
    let disk = house.into_disk();
    let (status, second) = ended(alloc, last, compacted, sink);
    RanTwo {
        status,
        disk,
        second,
    }
}

// The status by what became of the second disk, and that disk. Where it is done, a line is put.
fn ended<E, K: Sink>(alloc: Global, last: u32, compacted: Compacted<E>, sink: &mut K) -> (Status, E)
    ensures status { EndsAs K.Sink last sink.old sink.new compacted result.0 }
    ensures second { result.1 ≡ second_out compacted }
{
    match compacted {
        Compacted::Done { second, rows } => (put_compacted(alloc, last, rows, sink), second),
        Compacted::NoVersion { second, last } => (Status::NoVersion { last }, second),
        Compacted::AlreadyThere(second) => (Status::AlreadyThere, second),
        Compacted::PageLimit { second, allotted } => (Status::PageLimit { allotted }, second),
        Compacted::Damaged { second, page } => {
            let area = Area::Pages;
            (Status::Damaged { area, page }, second)
        }
        Compacted::NoMemory(second) => (Status::NoMemory, second),
        Compacted::Disk(second) => (Status::DiskFault, second),
    }
}

// Puts the line that says the last version, and how many adds and withdrawals the history has.
fn put_compacted<K: Sink>(alloc: Global, last: u32, rows: u32, sink: &mut K) -> Status
    ensures puts { PutsCompacted K.Sink last sink.old sink.new rows result }
{
    match compacted_line(alloc, last, rows) {
        Ok(line) => put_line(line.as_bytes(), sink),
        Err(_) => Status::NoMemory,
    }
}

fn compacted_line(alloc: Global, last: u32, rows: u32) -> Result<String, AllocError>
    ensures { IfOk result (λ line. line.bytes.items ≡ line_of last rows) }
{
    Ok(format!(in alloc; "compacted,{last},{rows}\n")?)
}
