//! Worked runs over a warehouse on a disk, with commits: whole inputs, failing calls, and stops.
use crate::memory::{KINDS, Step, failing_at, first_wrong, new_warehouse, run_over, words_of};
use boxsum::{Ran, Status, run};
use page_disk::{MemDisk, PlainDisk};
use ports::{MemSink, MemSource};
use std::alloc::Global;
use std::test::Fail;

// Two boxes that touch at 5.
pub(crate) const TOUCHING: &str = "add,1,1,2,5,10\nadd,1,2,5,9,7\ncommit,1\nsum,1,5,5\n";

const STEPS: [Step; 35] = [
    // Boxes that touch, and a withdrawal that leaves past versions.
    Step {
        words: "create 1",
        input: "",
        text: "",
    },
    Step {
        words: "run",
        input: TOUCHING,
        text: "version,1\nsum,1,17\n",
    },
    Step {
        words: "run",
        input: "sum,now,6,6\nsum,now,0,1\nsum,now,0,5\n",
        text: "sum,1,7\nsum,1,0\nsum,1,17\n",
    },
    Step {
        words: "run",
        input: "withdraw,1,1\ncommit,1\nsum,1,5,5\nsum,2,5,5\ncount,2,0,9\n",
        text: "version,2\nsum,1,17\nsum,2,7\ncount,2,1\n",
    },
    Step {
        words: "run",
        input: "sum,0,0,4294967294\nsum,9,0,1\n",
        text: "sum,0,0\nnoversion,2\n",
    },
    // An empty input, and an empty batch.
    Step {
        words: "create 1",
        input: "",
        text: "",
    },
    Step {
        words: "run",
        input: "",
        text: "",
    },
    Step {
        words: "run",
        input: "commit,1\n",
        text: "version,1\n",
    },
    // Integrals in one, two and three dimensions.
    Step {
        words: "create 1 --degree 2",
        input: "",
        text: "",
    },
    Step {
        words: "run",
        input: "add,1,1,0,3,1,0,0,1\ncommit,1\nintegral,now,1,2\n",
        text: "version,1\nintegral,1,14\n",
    },
    Step {
        words: "create 2 --degree=1",
        input: "",
        text: "",
    },
    Step {
        words: "run",
        input: "add,1,1,0,2,0,2,1,0,0,0,1\ncommit,1\nintegral,now,1,2,0,1\n",
        text: "version,1\nintegral,1,27\n",
    },
    Step {
        words: "create 3 --degree 2",
        input: "",
        text: "",
    },
    Step {
        words: "run",
        input: "add,1,1,0,1,0,1,0,1,1,0,0,0,0,0,0,0,0,0,0,0,0,0,0,0,0,0,0,0,0,0,0,0,0,0,0,1\ncommit,1\nintegral,now,0,4294967294,0,4294967294,0,4294967294\n",
        text: "version,1\nintegral,1,8\n",
    },
    // Masses: too great, up to the limit, and at it.
    Step {
        words: "create 3 --degree 2",
        input: "",
        text: "",
    },
    Step {
        words: "run",
        input: "add,1,1,0,4294967294,0,4294967294,0,4294967294,1,0,0,0,0,0,0,0,0,0,0,0,0,0,0,0,0,0,0,0,0,0,0,0,0,0,0,1\ncommit,1\n",
        text: "refused,1,mass\n",
    },
    Step {
        words: "create 1 --degree 2",
        input: "",
        text: "",
    },
    Step {
        words: "run",
        input: "add,1,1,0,2147483648,0,0,0,4294967295\nadd,1,2,0,1048576,0,0,0,8589934591\nadd,1,3,0,1,0,0,1,1152921504606846974\ncommit,1\n",
        text: "version,1\n",
    },
    Step {
        words: "run",
        input: "add,1,4,0,1,0,0,0,1\ncommit,1\n",
        text: "refused,1,mass\n",
    },
    Step {
        words: "create 1 --degree 2",
        input: "",
        text: "",
    },
    Step {
        words: "run",
        input: "add,1,1,0,2147483648,0,0,0,4294967295\nadd,1,2,0,1048576,0,0,0,8589934591\nadd,1,3,0,1,0,0,0,1152921504606846975\ncommit,1\nadd,1,4,0,1,0,0,0,1\ncommit,1\n",
        text: "version,1\nrefused,1,mass\n",
    },
    // Each refusal of ids, over several runs.
    Step {
        words: "create 1",
        input: "",
        text: "",
    },
    Step {
        words: "run",
        input: "add,1,1,0,9,5\ncommit,1\nadd,1,2,0,9,1\nadd,1,1,3,4,1\ncommit,1\nsum,now,0,9\n",
        text: "version,1\nrefused,2,used\nsum,1,5\n",
    },
    Step {
        words: "run",
        input: "add,1,3,0,1,1\nwithdraw,1,3\ncommit,1\nwithdraw,1,8\ncommit,1\nwithdraw,1,1\ncommit,1\n",
        text: "refused,2,fresh\nrefused,1,unknown\nversion,2\n",
    },
    Step {
        words: "run",
        input: "withdraw,1,1\ncommit,1\nadd,1,1,0,9,5\ncommit,1\n",
        text: "refused,1,gone\nversion,3\n",
    },
    // The limit on events.
    Step {
        words: "create 1 --events 3",
        input: "",
        text: "",
    },
    Step {
        words: "run",
        input: "add,1,1,0,1,1\ncommit,1\nadd,1,2,0,1,1\ncommit,1\ncommit,1\ncommit,1\n",
        text: "version,1\nrefused,0,events\nversion,2\nrefused,0,events\n",
    },
    // Quotes and carriage returns, and a last line without an end.
    Step {
        words: "create 2 --degree 0",
        input: "",
        text: "",
    },
    Step {
        words: "run",
        input: "\"add\",1,\"501\",100,149,200,259,1,7\r\n\"commit\",1\r\n\"integral\",now,120,139,190,209\r\nsum,now,120,139,190,209",
        text: "version,1\nintegral,1,43092\nsum,1,1\n",
    },
    // Boxes in three dimensions, of which a query meets both, one, and none.
    Step {
        words: "create 3",
        input: "",
        text: "",
    },
    Step {
        words: "run",
        input: "add,1,1,0,2,0,2,0,2,4\nadd,1,2,2,4,2,4,2,4,5\ncommit,1\nsum,now,2,2,2,2,2,2\nsum,now,3,9,0,9,0,9\ncount,now,0,1,0,1,3,9\n",
        text: "version,1\nsum,1,9\nsum,1,5\ncount,1,0\n",
    },
    // The ends of signed coordinates.
    Step {
        words: "create 1 --signed 1",
        input: "",
        text: "",
    },
    Step {
        words: "run",
        input: "add,1,1,-2147483647,2147483646,1\nadd,1,2,-2147483648,0,1\nadd,1,3,0,2147483647,1\ncommit,1\nsum,now,-2147483647,-2147483647\nsum,now,2147483646,2147483646\n",
        text: "bad,2\nbad,3\nversion,1\nsum,1,1\nsum,1,1\n",
    },
    // A move is two events.
    Step {
        words: "create 1 --events 4",
        input: "",
        text: "",
    },
    Step {
        words: "run",
        input: "add,1,1,0,1,1\ncommit,1\nmove,1,1,5,6,1\ncommit,1\n",
        text: "version,1\nrefused,0,events\n",
    },
];

#[test]
fn runs_on_a_disk(rt: HostRuntime) -> Result<(), Fail> {
    assert_eq!(rt; first_wrong(rt.alloc(), &STEPS)?, None);
    Ok(())
}

// Adds of so many boxes, all alike, with ids from 1, a commit, and a count of them.
pub(crate) fn many_adds(alloc: Global, count: u32) -> Result<String, Fail> {
    let mut input = String::new(alloc);
    for id in 1..count.saturating_add(1) {
        input.push_str(format!(in alloc; "add,1,{id},5,5,5,5,1\n")?.as_str())?;
    }
    input.push_str("commit,1\ncount,now,5,5,5,5\n")?;
    Ok(input)
}

#[test]
fn a_warehouse_with_a_version_is_not_made_anew(rt: HostRuntime) -> Result<(), Fail> {
    let alloc = rt.alloc();
    let (ran, _) = run_over(alloc, "run", TOUCHING.as_bytes(), new_warehouse(alloc)?)?;
    assert_eq!(rt; ran.status, Status::Fine);
    let (ran, sink) = run_over(alloc, "create 1", b"", ran.disk)?;
    assert_eq!(rt; ran.status, Status::AlreadyThere);
    assert_eq!(rt; sink.bytes(), b"".as_slice());
    assert_eq!(rt; has_batch(alloc, ran.disk)?, Some(true));
    Ok(())
}

#[test]
fn points_with_equal_coordinates(rt: HostRuntime) -> Result<(), Fail> {
    let alloc = rt.alloc();
    let input = many_adds(alloc, 65)?;
    let (ran, _) = run_over(alloc, "create 2", b"", PlainDisk::blank(alloc))?;
    let (ran, sink) = run_over(alloc, "run", input.as_bytes(), ran.disk)?;
    assert_eq!(rt; ran.status, Status::Fine);
    assert_eq!(rt; sink.bytes(), b"version,1\ncount,1,65\n".as_slice());
    Ok(())
}

#[test]
fn a_batch_past_the_limit_of_pages(rt: HostRuntime) -> Result<(), Fail> {
    let alloc = rt.alloc();
    let input = many_adds(alloc, 3000)?;
    let (ran, _) = run_over(alloc, "create --pages 8 -- 2", b"", PlainDisk::blank(alloc))?;
    let (ran, sink) = run_over(alloc, "run", input.as_bytes(), ran.disk)?;
    assert_eq!(rt; ran.status, Status::PageLimit { allotted: 8 });
    assert_eq!(rt; sink.bytes(), b"".as_slice());
    let (ran, sink) = run_over(alloc, "run", b"count,now,0,9,0,9", ran.disk)?;
    assert_eq!(rt; ran.status, Status::Fine);
    assert_eq!(rt; sink.bytes(), b"count,0,0\n".as_slice());
    Ok(())
}

#[test]
fn each_call_of_a_commit_fails(rt: HostRuntime) -> Result<(), Fail> {
    let alloc = rt.alloc();
    let disk = new_warehouse(alloc)?;
    let before = disk.calls();
    let (ran, _) = run_over(alloc, "run", TOUCHING.as_bytes(), disk)?;
    assert_eq!(rt; ran.status, Status::Fine);
    let after = ran.disk.calls();
    assert!(rt; before < after && after < 1000);
    for call in 1..after - before + 1 {
        let ended = failing_at(
            alloc,
            "run",
            TOUCHING.as_bytes(),
            new_warehouse(alloc)?,
            call,
        )?;
        assert_eq!(rt; ended, (Status::DiskFault, 1), "call {call}");
    }
    Ok(())
}

#[test]
fn the_ports_of_a_run_fail(rt: HostRuntime) -> Result<(), Fail> {
    let alloc = rt.alloc();
    let list = words_of(alloc, "run")?;
    let input = Vec::from_slice(alloc, TOUCHING.as_bytes())?;
    let mut source = MemSource::new(input, 4096, Vec::from_slice(alloc, &[1])?);
    let mut sink = MemSink::new(alloc, Vec::new(alloc));
    let ran = run(
        alloc,
        list.as_slice(),
        new_warehouse(alloc)?,
        &mut source,
        &mut sink,
    );
    assert_eq!(rt; ran.status, Status::ReadFault);
    assert_eq!(rt; sink.bytes(), b"".as_slice());
    let input = Vec::from_slice(alloc, TOUCHING.as_bytes())?;
    let mut source = MemSource::new(input, 4096, Vec::new(alloc));
    let mut sink = MemSink::new(alloc, Vec::from_slice(alloc, &[1])?);
    let ran = run(
        alloc,
        list.as_slice(),
        new_warehouse(alloc)?,
        &mut source,
        &mut sink,
    );
    assert_eq!(rt; ran.status, Status::WriteFault);
    assert_eq!(rt; sink.bytes(), b"".as_slice());
    Ok(())
}

// What a run on the disk answers that a stopped run leaves: whether the batch is there.
pub(crate) fn has_batch(alloc: Global, disk: MemDisk) -> Result<Option<bool>, Fail> {
    let (ran, sink) = run_over(alloc, "run", b"sum,now,5,5", disk)?;
    if ran.status != Status::Fine {
        return Ok(None);
    }
    if sink.bytes() == b"sum,0,0\n".as_slice() {
        return Ok(Some(false));
    }
    if sink.bytes() == b"sum,1,17\n".as_slice() {
        return Ok(Some(true));
    }
    Ok(None)
}

#[test]
fn a_commit_that_is_stopped(rt: HostRuntime) -> Result<(), Fail> {
    let alloc = rt.alloc();
    let disk = new_warehouse(alloc)?;
    let before = disk.calls();
    let (ran, _) = run_over(alloc, "run", TOUCHING.as_bytes(), disk)?;
    let after = ran.disk.calls();
    assert!(rt; before < after && after < 1000);
    let all = after - before;
    for torn in KINDS {
        let mut was_there = false;
        for calls in 0..all + 1 {
            let mut disk = new_warehouse(alloc)?;
            disk.stop_after(calls);
            let (ran, sink) = run_over(alloc, "run", TOUCHING.as_bytes(), disk)?;
            let Ran { status: _, disk } = ran;
            let acknowledged = sink.bytes().starts_with(b"version,1\n".as_slice());
            let there = has_batch(alloc, disk.crash(torn))?;
            assert!(rt; there.is_some(), "call {calls}");
            let there = there == Some(true);
            // What is acknowledged is there, and once it is there it stays.
            assert!(rt; there || !acknowledged, "call {calls}");
            assert!(rt; there || !was_there, "call {calls}");
            was_there = there;
        }
        assert!(rt; was_there);
    }
    Ok(())
}
