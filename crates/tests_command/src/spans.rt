//! Worked spans over two disks: what is derived, what it answers, what stays, and where a call fails or the program stops.
use crate::memory::{KINDS, new_warehouse, run_over, words_of};
use boxsum::{RanTwo, Status, run, run_two};
use page_disk::{Disk, MemDisk};
use ports::{MemSink, MemSource};
use std::alloc::Global;
use std::test::Fail;

// Two boxes, one of which is withdrawn.
const TWO_VERSIONS: &str = "add,1,1,2,5,10\nadd,1,2,5,9,7\ncommit,1\nwithdraw,1,1\ncommit,1\n";

const ASKED: &str = "spansum,1,2,5,5\nspansum,0,now,6,6\nspansum,2,1,5,5\nspansum,1,3,5,5\n";

const ANSWERED: &str = "spansum,1,2,24\nspansum,0,2,14\nbad,3\nnoversion,4\n";

// Runs the words over two disks with an input. What is written is left in the sink.
fn spans_over<D: Disk + Drop, E: Disk + Drop>(
    alloc: Global,
    words: &str,
    input: &[u8],
    disk: D,
    second: E,
) -> Result<(RanTwo<D, E>, MemSink), Fail> {
    let list = words_of(alloc, words)?;
    let mut source = MemSource::new(Vec::from_slice(alloc, input)?, 4096, Vec::new(alloc));
    let mut sink = MemSink::new(alloc, Vec::new(alloc));
    let ran = run_two(alloc, list.as_slice(), disk, second, &mut source, &mut sink);
    Ok((ran, sink))
}

// A recording disk with the two versions.
fn two_versions(alloc: Global) -> Result<MemDisk, Fail> {
    let (ran, _) = run_over(alloc, "run", TWO_VERSIONS.as_bytes(), new_warehouse(alloc)?)?;
    Ok(ran.disk)
}

// What `spanrun` answers of a disk.
fn asked_of(alloc: Global, second: MemDisk) -> Result<(Status, MemSink, MemDisk), Fail> {
    let (ran, sink) = spans_over(
        alloc,
        "spanrun",
        ASKED.as_bytes(),
        MemDisk::blank(alloc),
        second,
    )?;
    Ok((ran.status, sink, ran.second))
}

#[test]
fn spans_of_two_versions(rt: HostRuntime) -> Result<(), Fail> {
    let alloc = rt.alloc();
    let blank = MemDisk::blank(alloc);
    let (ran, sink) = spans_over(alloc, "spans", b"", two_versions(alloc)?, blank)?;
    assert_eq!(rt; ran.status, Status::Fine);
    assert_eq!(rt; sink.bytes(), b"spans,2\n".as_slice());
    let RanTwo { disk, second, .. } = ran;
    // The first disk is not called where spans are asked for.
    let calls = disk.calls();
    let (ran, sink) = spans_over(alloc, "spanrun", ASKED.as_bytes(), disk, second)?;
    assert_eq!(rt; ran.status, Status::Fine);
    assert_eq!(rt; sink.bytes(), ANSWERED.as_bytes());
    assert_eq!(rt; ran.disk.calls(), calls);
    // Spans that are there stay, and so does the warehouse.
    let RanTwo { disk, second, .. } = ran;
    let (ran, sink) = spans_over(alloc, "spans", b"", disk, second)?;
    assert_eq!(rt; ran.status, Status::AlreadyThere);
    assert_eq!(rt; sink.bytes(), b"".as_slice());
    let RanTwo { disk, second, .. } = ran;
    let (status, sink, _) = asked_of(alloc, second)?;
    assert_eq!(rt; status, Status::Fine);
    assert_eq!(rt; sink.bytes(), ANSWERED.as_bytes());
    let (_, sink) = run_over(alloc, "export", b"", disk)?;
    assert_eq!(rt; sink.bytes(), TWO_VERSIONS.as_bytes());
    Ok(())
}

#[test]
fn spans_that_are_refused(rt: HostRuntime) -> Result<(), Fail> {
    let alloc = rt.alloc();
    let (first, second) = (MemDisk::blank(alloc), MemDisk::blank(alloc));
    let (ran, sink) = spans_over(alloc, "spans", b"", first, second)?;
    assert_eq!(rt; ran.status, Status::NoWarehouse);
    assert_eq!(rt; sink.bytes(), b"".as_slice());
    assert_eq!(rt; ran.second.calls(), 0);
    let (status, sink, _) = asked_of(alloc, ran.second)?;
    assert_eq!(rt; status, Status::NoWarehouse);
    assert_eq!(rt; sink.bytes(), b"".as_slice());
    // A warehouse is no place for spans, and its disk has none.
    let (ran, _) = spans_over(
        alloc,
        "spans",
        b"",
        two_versions(alloc)?,
        two_versions(alloc)?,
    )?;
    assert_eq!(rt; ran.status, Status::AlreadyThere);
    let (_, sink) = run_over(alloc, "export", b"", ran.second)?;
    assert_eq!(rt; sink.bytes(), TWO_VERSIONS.as_bytes());
    // Where there is one disk these are no commands.
    for words in ["spans", "spanrun"] {
        let list = words_of(alloc, words)?;
        let mut source = MemSource::new(Vec::new(alloc), 4096, Vec::new(alloc));
        let mut sink = MemSink::new(alloc, Vec::new(alloc));
        let disk = two_versions(alloc)?;
        let calls = disk.calls();
        let ran = run(alloc, list.as_slice(), disk, &mut source, &mut sink);
        assert_eq!(rt; ran.status, Status::Usage);
        assert_eq!(rt; ran.disk.calls(), calls);
    }
    Ok(())
}

#[test]
fn spans_of_no_version(rt: HostRuntime) -> Result<(), Fail> {
    let alloc = rt.alloc();
    let blank = MemDisk::blank(alloc);
    let (ran, sink) = spans_over(alloc, "spans", b"", new_warehouse(alloc)?, blank)?;
    assert_eq!(rt; ran.status, Status::Fine);
    assert_eq!(rt; sink.bytes(), b"spans,0\n".as_slice());
    let (ran, sink) = spans_over(alloc, "spans", b"", ran.disk, ran.second)?;
    assert_eq!(rt; ran.status, Status::Fine);
    assert_eq!(rt; sink.bytes(), b"spans,0\n".as_slice());
    // They may be replaced by those of more versions under the same params, and under no others.
    let (made, _) = run_over(alloc, "create 2", b"", MemDisk::blank(alloc))?;
    let (ran, _) = spans_over(alloc, "spans", b"", made.disk, ran.second)?;
    assert_eq!(rt; ran.status, Status::AlreadyThere);
    let (ran, sink) = spans_over(alloc, "spans", b"", two_versions(alloc)?, ran.second)?;
    assert_eq!(rt; ran.status, Status::Fine);
    assert_eq!(rt; sink.bytes(), b"spans,2\n".as_slice());
    Ok(())
}

// What a second disk has that a stopped derivation leaves: 0 where it is empty, 1 where it has spans of no version, and 2 where it has all.
fn spans_there(alloc: Global, second: MemDisk) -> Result<Option<u32>, Fail> {
    let (status, sink, _) = asked_of(alloc, second)?;
    if status == Status::NoWarehouse {
        return Ok(Some(0));
    }
    if sink.bytes() == b"noversion,1\nspansum,0,0,0\nnoversion,3\nnoversion,4\n".as_slice() {
        return Ok(Some(1));
    }
    if sink.bytes() == ANSWERED.as_bytes() {
        return Ok(Some(2));
    }
    Ok(None)
}

#[test]
fn spans_that_are_stopped(rt: HostRuntime) -> Result<(), Fail> {
    let alloc = rt.alloc();
    let blank = MemDisk::blank(alloc);
    let (ran, _) = spans_over(alloc, "spans", b"", two_versions(alloc)?, blank)?;
    assert_eq!(rt; ran.status, Status::Fine);
    let all = ran.second.calls();
    assert!(rt; all < 1000);
    for torn in KINDS {
        let mut before = 0;
        for calls in 0..all + 1 {
            let mut second = MemDisk::blank(alloc);
            second.stop_after(calls);
            let (ran, sink) = spans_over(alloc, "spans", b"", two_versions(alloc)?, second)?;
            let RanTwo { second, .. } = ran;
            let done = sink.bytes() == b"spans,2\n".as_slice();
            let there = spans_there(alloc, second.crash(torn))?;
            assert!(rt; there.is_some(), "call {calls}");
            let there = there.unwrap_or(0);
            // What is printed is there, and what was once made stays.
            assert!(rt; !done || there == 2, "call {calls}");
            assert!(rt; before <= there, "call {calls}");
            before = there;
        }
        assert_eq!(rt; before, 2);
    }
    Ok(())
}

// Where a call on a disk fails the first one stays, and the second is empty or has the spans of no version or of all.
#[test]
fn each_call_for_spans_fails(rt: HostRuntime) -> Result<(), Fail> {
    let alloc = rt.alloc();
    let disk = two_versions(alloc)?;
    let before = disk.calls();
    let (ran, _) = spans_over(alloc, "spans", b"", disk, MemDisk::blank(alloc))?;
    assert_eq!(rt; ran.status, Status::Fine);
    let (all, read) = (ran.second.calls(), ran.disk.calls().saturating_sub(before));
    assert!(rt; all < 1000 && 0 < read && read < 1000);
    for call in 1..all + 1 {
        let mut second = MemDisk::blank(alloc);
        second.fail_at(Vec::from_slice(alloc, &[call])?);
        let (ran, sink) = spans_over(alloc, "spans", b"", two_versions(alloc)?, second)?;
        assert_eq!(rt; ran.status, Status::DiskFault, "call {call}");
        assert_eq!(rt; sink.bytes(), b"".as_slice(), "call {call}");
        assert!(rt; spans_there(alloc, ran.second)?.is_some(), "call {call}");
        let (_, sink) = run_over(alloc, "export", b"", ran.disk)?;
        assert_eq!(rt; sink.bytes(), TWO_VERSIONS.as_bytes(), "call {call}");
    }
    for call in 1..read + 1 {
        let mut disk = two_versions(alloc)?;
        disk.fail_at(Vec::from_slice(alloc, &[call])?);
        let (ran, _) = spans_over(alloc, "spans", b"", disk, MemDisk::blank(alloc))?;
        assert_eq!(rt; ran.status, Status::DiskFault, "call {call}");
        assert!(rt; spans_there(alloc, ran.second)?.is_some(), "call {call}");
    }
    Ok(())
}

// Where a call fails while spans are asked for, what was printed is a part of the answers, and the spans stay.
#[test]
fn each_call_of_a_span_run_fails(rt: HostRuntime) -> Result<(), Fail> {
    let alloc = rt.alloc();
    let blank = MemDisk::blank(alloc);
    let (ran, _) = spans_over(alloc, "spans", b"", two_versions(alloc)?, blank)?;
    let RanTwo { mut second, .. } = ran;
    let first = second.calls();
    let (status, _, back) = asked_of(alloc, second)?;
    assert_eq!(rt; status, Status::Fine);
    let all = back.calls().saturating_sub(first);
    assert!(rt; 0 < all && all < 1000);
    second = back;
    for call in 1..all + 1 {
        second.fail_at(Vec::from_slice(alloc, &[call])?);
        let (status, sink, back) = asked_of(alloc, second)?;
        assert_eq!(rt; status, Status::DiskFault, "call {call}");
        assert!(rt;
            ANSWERED.as_bytes().starts_with(sink.bytes()),
            "call {call}"
        );
        let (status, sink, back) = asked_of(alloc, back)?;
        assert_eq!(rt; status, Status::Fine, "call {call}");
        assert_eq!(rt; sink.bytes(), ANSWERED.as_bytes(), "call {call}");
        second = back;
    }
    Ok(())
}

// Input and output that fail, and an input that is cut in pieces of one byte.
#[test]
fn a_span_run_in_pieces(rt: HostRuntime) -> Result<(), Fail> {
    let alloc = rt.alloc();
    let blank = MemDisk::blank(alloc);
    let (ran, _) = spans_over(alloc, "spans", b"", two_versions(alloc)?, blank)?;
    let RanTwo { disk, second, .. } = ran;
    let list = words_of(alloc, "spanrun")?;
    let input = Vec::from_slice(alloc, ASKED.as_bytes())?;
    let mut source = MemSource::new(input, 1, Vec::new(alloc));
    let mut sink = MemSink::new(alloc, Vec::new(alloc));
    let ran = run_two(alloc, list.as_slice(), disk, second, &mut source, &mut sink);
    assert_eq!(rt; ran.status, Status::Fine);
    assert_eq!(rt; sink.bytes(), ANSWERED.as_bytes());
    let RanTwo { disk, second, .. } = ran;
    let input = Vec::from_slice(alloc, ASKED.as_bytes())?;
    let mut source = MemSource::new(input, 4096, Vec::new(alloc));
    let mut sink = MemSink::new(alloc, Vec::from_slice(alloc, &[1])?);
    let ran = run_two(alloc, list.as_slice(), disk, second, &mut source, &mut sink);
    assert_eq!(rt; ran.status, Status::WriteFault);
    let RanTwo { disk, second, .. } = ran;
    let input = Vec::from_slice(alloc, ASKED.as_bytes())?;
    let mut source = MemSource::new(input, 4096, Vec::from_slice(alloc, &[1])?);
    let mut sink = MemSink::new(alloc, Vec::new(alloc));
    let ran = run_two(alloc, list.as_slice(), disk, second, &mut source, &mut sink);
    assert_eq!(rt; ran.status, Status::ReadFault);
    assert_eq!(rt; sink.bytes(), b"".as_slice());
    Ok(())
}
