//! Worked compactions: what the second disk has, and what stays.
use crate::memory::{KINDS, new_warehouse, run_over, words_of};
use boxsum::{RanTwo, Status, run, run_two};
use page_disk::{Disk, MemDisk, PlainDisk};
use ports::{MemSink, MemSource};
use std::alloc::Global;
use std::test::Fail;

// Two boxes, one of which is withdrawn.
const TWO_VERSIONS: &str = "add,1,1,2,5,10\nadd,1,2,5,9,7\ncommit,1\nwithdraw,1,1\ncommit,1\n";

// Runs the words over two disks, without an input. What is written is left in the sink.
fn run_on_two<D: Disk + Drop, E: Disk + Drop>(
    alloc: Global,
    words: &str,
    disk: D,
    second: E,
) -> Result<(RanTwo<D, E>, MemSink), Fail> {
    let list = words_of(alloc, words)?;
    let mut source = MemSource::new(Vec::new(alloc), 4096, Vec::new(alloc));
    let mut sink = MemSink::new(alloc, Vec::new(alloc));
    let ran = run_two(alloc, list.as_slice(), disk, second, &mut source, &mut sink);
    Ok((ran, sink))
}

// A recording disk with the two versions.
fn two_versions(alloc: Global) -> Result<MemDisk, Fail> {
    let (ran, _) = run_over(alloc, "run", TWO_VERSIONS.as_bytes(), new_warehouse(alloc)?)?;
    Ok(ran.disk)
}

#[test]
fn the_last_version_alone(rt: HostRuntime) -> Result<(), Fail> {
    let alloc = rt.alloc();
    let blank = PlainDisk::blank(alloc);
    let (ran, sink) = run_on_two(alloc, "compact 2", two_versions(alloc)?, blank)?;
    assert_eq!(rt; ran.status, Status::Fine);
    assert_eq!(rt; sink.bytes(), b"compacted,2,1\n".as_slice());
    let RanTwo { disk, second, .. } = ran;
    let asked = b"sum,2,5,5\ncount,now,0,9\n";
    let (there, sink) = run_over(alloc, "run", asked, second)?;
    assert_eq!(rt; sink.bytes(), b"sum,2,7\ncount,2,1\n".as_slice());
    // The first disk is as it was, and a second that has a warehouse stays.
    let (ran, sink) = run_on_two(alloc, "compact 2", disk, there.disk)?;
    assert_eq!(rt; ran.status, Status::AlreadyThere);
    assert_eq!(rt; sink.bytes(), b"".as_slice());
    let RanTwo { disk, second, .. } = ran;
    let (_, sink) = run_over(alloc, "export", b"", disk)?;
    assert_eq!(rt; sink.bytes(), TWO_VERSIONS.as_bytes());
    let (_, sink) = run_over(alloc, "export", b"", second)?;
    assert_eq!(rt;
        sink.bytes(),
        b"add,1,2,5,9,7\ncommit,1\ncommit,1\n".as_slice()
    );
    Ok(())
}

#[test]
fn each_version_is_kept_from(rt: HostRuntime) -> Result<(), Fail> {
    let alloc = rt.alloc();
    let kept = [
        ("compact 0", "compacted,2,3\n", TWO_VERSIONS),
        ("compact 1", "compacted,2,3\n", TWO_VERSIONS),
        (
            "compact 2",
            "compacted,2,1\n",
            "add,1,2,5,9,7\ncommit,1\ncommit,1\n",
        ),
    ];
    for (words, said, text) in kept {
        let blank = MemDisk::blank(alloc);
        let (ran, sink) = run_on_two(alloc, words, two_versions(alloc)?, blank)?;
        assert_eq!(rt; ran.status, Status::Fine);
        assert_eq!(rt; sink.bytes(), said.as_bytes());
        let (_, sink) = run_over(alloc, "export", b"", ran.second)?;
        assert_eq!(rt; sink.bytes(), text.as_bytes());
    }
    Ok(())
}

#[test]
fn a_compaction_that_is_refused(rt: HostRuntime) -> Result<(), Fail> {
    let alloc = rt.alloc();
    let (ran, sink) = run_on_two(
        alloc,
        "compact 3",
        two_versions(alloc)?,
        MemDisk::blank(alloc),
    )?;
    assert_eq!(rt; ran.status, Status::NoVersion { last: 2 });
    assert_eq!(rt; sink.bytes(), b"".as_slice());
    assert_eq!(rt; ran.second.calls(), 0);
    let (ran, sink) = run_on_two(
        alloc,
        "compact 0",
        MemDisk::blank(alloc),
        MemDisk::blank(alloc),
    )?;
    assert_eq!(rt; ran.status, Status::NoWarehouse);
    assert_eq!(rt; sink.bytes(), b"".as_slice());
    assert_eq!(rt; ran.second.calls(), 0);
    // Where there is one disk it is no command.
    let list = words_of(alloc, "compact 2")?;
    let mut source = MemSource::new(Vec::new(alloc), 4096, Vec::new(alloc));
    let mut sink = MemSink::new(alloc, Vec::new(alloc));
    let disk = two_versions(alloc)?;
    let calls = disk.calls();
    let ran = run(alloc, list.as_slice(), disk, &mut source, &mut sink);
    assert_eq!(rt; ran.status, Status::Usage);
    assert_eq!(rt; ran.disk.calls(), calls);
    Ok(())
}

// What a second disk has that a stopped compaction leaves: no warehouse, or so many of its two versions.
fn versions_there(alloc: Global, second: MemDisk) -> Result<Option<u32>, Fail> {
    let (ran, sink) = run_over(alloc, "run", b"sum,now,5,5", second)?;
    if ran.status == Status::NoWarehouse || sink.bytes() == b"sum,0,0\n".as_slice() {
        return Ok(Some(0));
    }
    if sink.bytes() == b"sum,1,7\n".as_slice() {
        return Ok(Some(1));
    }
    if sink.bytes() == b"sum,2,7\n".as_slice() {
        return Ok(Some(2));
    }
    Ok(None)
}

#[test]
fn a_compaction_that_is_stopped(rt: HostRuntime) -> Result<(), Fail> {
    let alloc = rt.alloc();
    let (ran, _) = run_on_two(
        alloc,
        "compact 2",
        two_versions(alloc)?,
        MemDisk::blank(alloc),
    )?;
    assert_eq!(rt; ran.status, Status::Fine);
    let all = ran.second.calls();
    assert!(rt; all < 1000);
    for torn in KINDS {
        let mut before = 0;
        for calls in 0..all + 1 {
            let mut second = MemDisk::blank(alloc);
            second.stop_after(calls);
            let (ran, sink) = run_on_two(alloc, "compact 2", two_versions(alloc)?, second)?;
            let RanTwo { second, .. } = ran;
            let done = sink.bytes().starts_with(b"compacted,2,1\n".as_slice());
            let there = versions_there(alloc, second.crash(torn))?;
            assert!(rt; there.is_some(), "call {calls}");
            let there = there.unwrap_or(0);
            // What is printed is there, and once a version is there it stays.
            assert!(rt; !done || there == 2, "call {calls}");
            assert!(rt; before <= there, "call {calls}");
            before = there;
        }
        assert_eq!(rt; before, 2);
    }
    Ok(())
}

// Where a call on a disk fails the first one stays, and the second has no warehouse or a first part of the history.
#[test]
fn each_call_of_a_compaction_fails(rt: HostRuntime) -> Result<(), Fail> {
    let alloc = rt.alloc();
    let disk = two_versions(alloc)?;
    let before = disk.calls();
    let (ran, _) = run_on_two(alloc, "compact 2", disk, MemDisk::blank(alloc))?;
    assert_eq!(rt; ran.status, Status::Fine);
    let (all, read) = (ran.second.calls(), ran.disk.calls().saturating_sub(before));
    assert!(rt; all < 1000 && 0 < read && read < 1000);
    for call in 1..all + 1 {
        let mut second = MemDisk::blank(alloc);
        second.fail_at(Vec::from_slice(alloc, &[call])?);
        let (ran, sink) = run_on_two(alloc, "compact 2", two_versions(alloc)?, second)?;
        assert_eq!(rt; ran.status, Status::DiskFault, "call {call}");
        assert_eq!(rt; sink.bytes(), b"".as_slice(), "call {call}");
        assert!(rt; versions_there(alloc, ran.second)?.is_some(), "call {call}");
        let (_, sink) = run_over(alloc, "export", b"", ran.disk)?;
        assert_eq!(rt; sink.bytes(), TWO_VERSIONS.as_bytes(), "call {call}");
    }
    for call in 1..read + 1 {
        let mut disk = two_versions(alloc)?;
        disk.fail_at(Vec::from_slice(alloc, &[call])?);
        let (ran, _) = run_on_two(alloc, "compact 2", disk, MemDisk::blank(alloc))?;
        assert_eq!(rt; ran.status, Status::DiskFault, "call {call}");
        assert!(rt; versions_there(alloc, ran.second)?.is_some(), "call {call}");
    }
    Ok(())
}
