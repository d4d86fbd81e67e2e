//! `spans`: the spans of the warehouse on a disk, on a second disk.
ghost use Rattle.std.specs.Prelude.{◌≡◌, ◌≢◌, None, IfOk};
ghost use Rattle.span_planes.specs.Made.{second_out};
ghost use Rattle.boxsum.specs.Printing.{EndsBy};
ghost use Rattle.boxsum.specs.Spanning.{Derives, failure_of, spans_line as line_of_spans};

use crate::printing::put_line;
use crate::status::{RanTwo, Status};
use dom_index::DomIndex;
use page_disk::{Area, Disk};
use page_space::{held_opens, holds_one};
use page_warehouse::{Warehouse, holding_laws};
use ports::Sink;
use redo_journal::settling_laws;
use span_planes::{Derived, derive};
use std::alloc::{AllocError, Global};

/// Opens the warehouse on the first disk, writes the spans of all its versions to the second, and prints the last version.
pub(crate) fn spans_on<X: DomIndex + Drop, D: Disk + Drop, E: Disk + Drop, K: Sink>(
    alloc: Global,
    disk: D,
    second: E,
    sink: &mut K,
) -> RanTwo<D, E>
    ensures derives { Derives D.Disk E.Disk K.Sink X.DomIndex disk second sink.old sink.new result }
{
    settling_laws();
    holds_one();
    held_opens();
    holding_laws::<X>();
    let mut house = match Warehouse::<D, X>::open_on(alloc, disk) {
        Ok(house) => house,
        Err(refused) => {
            return RanTwo {
                status: Status::from(refused.fault),
                disk: refused.disk,
                second,
            };
        }
    };
    // The line is made first, so that want of memory leaves the second disk as it was.
    let Ok(line) = spans_line(alloc, house.last()) else {
        return RanTwo {
            status: Status::NoMemory,
            disk: house.into_disk(),
            second,
        };
    };
    let derived = derive::<D, X, E>(alloc, &mut house, second);
    let disk = house.into_disk();
    let (status, second) = ended(derived, line.as_bytes(), sink);
    RanTwo {
        status,
        disk,
        second,
    }
}

// The status by what became of the second disk, and that disk. Where it is done, the line is put.
fn ended<E, K: Sink>(derived: Derived<E>, line: &[u8], sink: &mut K) -> (Status, E)
    ensures status { EndsBy K.Sink sink.old sink.new line.now (failure_of derived) result.0 }
    ensures memory { failure_of derived ≡ None → result.0 ≢ Status.NoMemory }
    ensures second { result.1 ≡ second_out derived }
{
    match derived {
        Derived::Done { second, .. } => (put_line(line, sink), second),
        Derived::AlreadyThere(second) => (Status::AlreadyThere, second),
        Derived::PageLimit { second, allotted } => (Status::PageLimit { allotted }, second),
        Derived::Damaged { second, page } => {
            let area = Area::Pages;
            (Status::Damaged { area, page }, second)
        }
        Derived::NoMemory(second) => (Status::NoMemory, second),
        Derived::Disk(second) => (Status::DiskFault, second),
    }
}

// The line that says the last version.
fn spans_line(alloc: Global, last: u32) -> Result<String, AllocError>
    ensures { IfOk result (λ line. line.bytes.items ≡ line_of_spans last) }
{
    Ok(format!(in alloc; "spans,{last}\n")?)
}
