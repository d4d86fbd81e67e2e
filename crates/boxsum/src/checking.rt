//! `check`: whether the disk holds a history, and which part of it is broken first.
ghost use Rattle.std.specs.Prelude.{◌≡◌, ◌≤◌, IsTrue, IfOk};
ghost use Rattle.ports.specs.Count.{Rose};
ghost use Rattle.boxsum.specs.Checking.{Checks, broken_line as line_of_broken, good_line as line_of_good};
ghost use Rattle.boxsum.specs.Ends.{ends_check};
ghost use Rattle.boxsum.specs.Printing.{PutsLine};

use crate::printing::put_line;
use crate::status::{Ran, Status};
use image_check::{CheckedIndex, Verdict, check, verdicts_are_right};
use page_checks::CheckFault;
use page_disk::Disk;
use page_warehouse::table_tells;
use ports::Sink;
use std::alloc::{AllocError, Global};

/// Reads the whole disk, and prints whether it holds a history. Nothing is written to the disk.
pub(crate) fn check_on<X: CheckedIndex + Drop, D: Disk + Drop, K: Sink>(
    alloc: Global,
    disk: D,
    sink: &mut K,
) -> Ran<D>
    ensures checks { Checks D.Disk K.Sink X.DomIndex disk sink.old sink.new result }
    ensures may_end { IsTrue (ends_check result.status) }
    ensures write_fault { result.status ≡ Status.WriteFault → Rose (K.faults sink.old) (K.faults sink.new) }
    ensures disk_fault { result.status ≡ Status.DiskFault → Rose (D.faults disk) (D.faults result.disk) }
    ensures tells { D.tells result.disk ≡ D.tells disk }
    ensures faults { D.faults disk ≤ D.faults result.disk }
{
    verdicts_are_right::<X>();
    table_tells::<X>();
    let mut disk = disk;
    let status = match check::<X, D>(alloc, &mut disk) {
        Ok(Verdict::Good { version, rows }) => put_good(alloc, version, rows, sink),
        Ok(Verdict::Broken(part)) => put_broken(alloc, part, sink),
        Ok(Verdict::Empty) => Status::NoWarehouse,
        Err(CheckFault::Disk) => Status::DiskFault,
        Err(CheckFault::NoMemory) => Status::NoMemory,
    };
    Ran { status, disk }
}

// Puts the line of a disk that holds a history.
fn put_good<K: Sink>(alloc: Global, version: u32, rows: u32, sink: &mut K) -> Status
    ensures { PutsLine K.Sink sink.old sink.new (line_of_good version rows) result }
{
    match good_line(alloc, version, rows) {
        Ok(line) => put_line(line.as_bytes(), sink),
        Err(_) => Status::NoMemory,
    }
}

fn good_line(alloc: Global, version: u32, rows: u32) -> Result<String, AllocError>
    ensures { IfOk result (λ line. line.bytes.items ≡ line_of_good version rows) }
{
    Ok(format!(in alloc; "good,{version},{rows}\n")?)
}

// Puts the line of a disk with a broken part.
fn put_broken<K: Sink>(alloc: Global, part: u8, sink: &mut K) -> Status
    ensures { PutsLine K.Sink sink.old sink.new (line_of_broken part) result }
{
    match broken_line(alloc, part) {
        Ok(line) => put_line(line.as_bytes(), sink),
        Err(_) => Status::NoMemory,
    }
}

fn broken_line(alloc: Global, part: u8) -> Result<String, AllocError>
    ensures { IfOk result (λ line. line.bytes.items ≡ line_of_broken part) }
{
    Ok(format!(in alloc; "broken,{part}\n")?)
}
