//! Samples: their summaries, as added up apart from the program, and samples that are stopped or fail.
use crate::memory::{KINDS, failing_at, run_over, words_of};
use boxsum::{Ran, Status, run};
use page_disk::{MemDisk, PlainDisk};
use ports::{MemSink, MemSource};
use std::alloc::Global;
use std::test::Fail;

// The words, and the summary. The totals were added up by `tests/sample`, object by object.
const SUMMARIES: [(&str, &str); 5] = [
    ("sample 0 0", "objects,0\nversions,0\nsums,0\n"),
    ("sample 5 9", "objects,9\nversions,1\nsums,628\n"),
    ("sample 6 10", "objects,10\nversions,2\nsums,1359\n"),
    ("sample 7 500", "objects,500\nversions,2\nsums,-7137\n"),
    ("sample 0 2000", "objects,2000\nversions,3\nsums,-7074\n"),
];

#[test]
fn summaries(rt: HostRuntime) -> Result<(), Fail> {
    let alloc = rt.alloc();
    for (words, summary) in SUMMARIES.iter() {
        let (ran, sink) = run_over(alloc, words, b"commit,1\n", PlainDisk::blank(alloc))?;
        assert_eq!(rt; ran.status, Status::Fine, "{words}");
        assert_eq!(rt; sink.bytes(), summary.as_bytes(), "{words}");
    }
    Ok(())
}

#[test]
fn a_sample_where_a_warehouse_is(rt: HostRuntime) -> Result<(), Fail> {
    let alloc = rt.alloc();
    let (ran, _) = run_over(alloc, "sample 0 0", b"", MemDisk::blank(alloc))?;
    let (ran, sink) = run_over(alloc, "sample 0 0", b"", ran.disk)?;
    assert_eq!(rt; ran.status, Status::AlreadyThere);
    assert_eq!(rt; sink.bytes(), b"".as_slice());
    // It is a warehouse like any other.
    let (ran, sink) = run_over(alloc, "run", b"count,now,0,9,0,9", ran.disk)?;
    assert_eq!(rt; ran.status, Status::Fine);
    assert_eq!(rt; sink.bytes(), b"count,0,0\n".as_slice());
    Ok(())
}

#[test]
fn a_summary_that_is_not_taken(rt: HostRuntime) -> Result<(), Fail> {
    let alloc = rt.alloc();
    let list = words_of(alloc, "sample 5 9")?;
    let mut source = MemSource::new(Vec::new(alloc), 4096, Vec::new(alloc));
    let mut sink = MemSink::new(alloc, Vec::from_slice(alloc, &[1])?);
    let ran = run(
        alloc,
        list.as_slice(),
        PlainDisk::blank(alloc),
        &mut source,
        &mut sink,
    );
    assert_eq!(rt; ran.status, Status::WriteFault);
    assert_eq!(rt; sink.bytes(), b"".as_slice());
    Ok(())
}

#[test]
fn each_call_of_a_sample_fails(rt: HostRuntime) -> Result<(), Fail> {
    let alloc = rt.alloc();
    let (ran, _) = run_over(alloc, "sample 5 9", b"", MemDisk::blank(alloc))?;
    let calls = ran.disk.calls();
    assert!(rt; calls < 1000);
    for call in 1..calls + 1 {
        let ended = failing_at(alloc, "sample 5 9", b"", MemDisk::blank(alloc), call)?;
        assert_eq!(rt; ended, (Status::DiskFault, 1), "call {call}");
    }
    Ok(())
}

// Whether what the stopped sample leaves is no warehouse, or one with the version 0 or 1 whole.
fn is_part_of_sample(alloc: Global, disk: MemDisk) -> Result<bool, Fail> {
    let (ran, sink) = run_over(alloc, "run", b"count,now,0,4294967294,0,4294967294", disk)?;
    let none = ran.status == Status::NoWarehouse && sink.bytes().is_empty();
    let before = sink.bytes() == b"count,0,0\n".as_slice();
    let after = sink.bytes() == b"count,1,9\n".as_slice();
    Ok(none || (ran.status == Status::Fine && (before || after)))
}

#[test]
fn a_sample_that_is_stopped(rt: HostRuntime) -> Result<(), Fail> {
    let alloc = rt.alloc();
    let (ran, _) = run_over(alloc, "sample 5 9", b"", MemDisk::blank(alloc))?;
    let all = ran.disk.calls();
    assert!(rt; all < 1000);
    for torn in KINDS {
        for calls in 0..all + 1 {
            let mut disk = MemDisk::blank(alloc);
            disk.stop_after(calls);
            let (ran, _) = run_over(alloc, "sample 5 9", b"", disk)?;
            let Ran { status: _, disk } = ran;
            assert!(rt; is_part_of_sample(alloc, disk.crash(torn))?, "call {calls}");
        }
    }
    Ok(())
}
