//! Worked exports: the rows that are printed, and warehouses that are made of them again.
use crate::disks::TOUCHING;
use crate::memory::{Step, failing_at, first_wrong, new_warehouse, run_over, words_of};
use boxsum::Status;
use page_disk::{MemDisk, PlainDisk};
use ports::{MemSink, MemSource};
use std::alloc::Global;
use std::test::Fail;

// Two boxes, one of which is withdrawn.
const TWO_VERSIONS: &str = "add,1,1,2,5,10\nadd,1,2,5,9,7\ncommit,1\nwithdraw,1,1\ncommit,1\n";

// A box that is moved, withdrawn and added again.
const FOUR_VERSIONS: &str =
    "add,1,1,0,9,5\ncommit,1\nmove,1,1,20,29,5\ncommit,1\nwithdraw,1,1\ncommit,1\nadd,1,1,0,9,7\ncommit,1\n";

const STEPS: [Step; 16] = [
    Step {
        words: "create 1",
        input: "",
        text: "",
    },
    // Without versions nothing is printed.
    Step {
        words: "export",
        input: "",
        text: "",
    },
    Step {
        words: "run",
        input: TWO_VERSIONS,
        text: "version,1\nversion,2\n",
    },
    Step {
        words: "export",
        input: "",
        text: TWO_VERSIONS,
    },
    // The warehouse is as it was.
    Step {
        words: "run",
        input: "sum,1,5,5\nsum,2,5,5\ncount,now,0,9\n",
        text: "sum,1,17\nsum,2,7\ncount,2,1\n",
    },
    Step {
        words: "create 1",
        input: "",
        text: "",
    },
    Step {
        words: "run",
        input: FOUR_VERSIONS,
        text: "version,1\nversion,2\nversion,3\nversion,4\n",
    },
    Step {
        words: "export",
        input: "",
        text: FOUR_VERSIONS,
    },
    // Quotes, leading zeros, other sessions, bad and refused rows and dropped ones are gone; an empty batch stays.
    Step {
        words: "create 2 --degree 1 --signed 1",
        input: "",
        text: "",
    },
    Step {
        words: "run",
        input: "add,3,\"007\",-5,03,-0,2,-7,0,-6,0,1\ntotal,1\ncommit,3\ncommit,5\nadd,1,7,0,0,0,0,1,0,0,0,0\ncommit,1\nadd,2,9,0,0,0,0,1,0,0,0,0\ndrop,2\n",
        text: "bad,2\nversion,1\nversion,2\nrefused,1,used\ndropped,2\n",
    },
    Step {
        words: "export",
        input: "",
        text: "add,1,7,-5,3,0,2,-7,0,-6,0,1\ncommit,1\ncommit,1\n",
    },
    // A withdrawal that is directly followed by an add of its id is a move, and no other one is.
    Step {
        words: "create 1",
        input: "",
        text: "",
    },
    Step {
        words: "run",
        input: "add,1,1,0,9,5\nadd,1,2,0,9,6\ncommit,1\nwithdraw,1,1\nadd,1,1,1,2,3\nwithdraw,1,2\nadd,1,3,4,4,4\ncommit,1\nwithdraw,1,1\ncommit,1\nadd,1,1,7,7,7\ncommit,1\n",
        text: "version,1\nversion,2\nversion,3\nversion,4\n",
    },
    Step {
        words: "export",
        input: "",
        text: "add,1,1,0,9,5\nadd,1,2,0,9,6\ncommit,1\nmove,1,1,1,2,3\nwithdraw,1,2\nadd,1,3,4,4,4\ncommit,1\nwithdraw,1,1\ncommit,1\nadd,1,1,7,7,7\ncommit,1\n",
    },
    // The greatest numbers.
    Step {
        words: "run",
        input: "add,1,18446744073709551615,0,4294967294,-9223372036854775808\ncommit,1\nwithdraw,1,18446744073709551615\ncommit,1\n",
        text: "version,5\nversion,6\n",
    },
    Step {
        words: "export",
        input: "",
        text: "add,1,1,0,9,5\nadd,1,2,0,9,6\ncommit,1\nmove,1,1,1,2,3\nwithdraw,1,2\nadd,1,3,4,4,4\ncommit,1\nwithdraw,1,1\ncommit,1\nadd,1,1,7,7,7\ncommit,1\nadd,1,18446744073709551615,0,4294967294,-9223372036854775808\ncommit,1\nwithdraw,1,18446744073709551615\ncommit,1\n",
    },
];

#[test]
fn exports_on_a_disk(rt: HostRuntime) -> Result<(), Fail> {
    assert_eq!(rt; first_wrong(rt.alloc(), &STEPS)?, None);
    Ok(())
}

// The export of a warehouse that was loaded with this text.
fn exported(alloc: Global, params: &str, rows: &[u8]) -> Result<MemSink, Fail> {
    let words = format!(in alloc; "create {params}")?;
    let (ran, _) = run_over(alloc, words.as_str(), b"", PlainDisk::blank(alloc))?;
    let (ran, _) = run_over(alloc, "run", rows, ran.disk)?;
    let (_, sink) = run_over(alloc, "export", b"", ran.disk)?;
    Ok(sink)
}

// An export that is loaded again is exported as the same text, here of more rows than are put at once.
#[test]
fn an_export_is_exported_again(rt: HostRuntime) -> Result<(), Fail> {
    let alloc = rt.alloc();
    let mut rows = String::new(alloc);
    for id in 1..1001u32 {
        let row = format!(in alloc; "add,2,{id},0,{id},{id}\n")?;
        rows.push_str(row.as_str())?;
        if id % 100 == 0 {
            rows.push_str("commit,2\n")?;
        }
    }
    let first = exported(alloc, "1", rows.as_bytes())?;
    assert!(rt; first.bytes().len() > 16000);
    let again = exported(alloc, "1", first.bytes())?;
    assert!(rt; again.bytes() == first.bytes());
    Ok(())
}

#[test]
fn nothing_is_exported_without_a_warehouse(rt: HostRuntime) -> Result<(), Fail> {
    let alloc = rt.alloc();
    let (ran, sink) = run_over(alloc, "export", b"", MemDisk::blank(alloc))?;
    assert_eq!(rt; ran.status, Status::NoWarehouse);
    assert_eq!(rt; sink.bytes(), b"".as_slice());
    Ok(())
}

#[test]
fn the_output_of_an_export_fails(rt: HostRuntime) -> Result<(), Fail> {
    let alloc = rt.alloc();
    let (ran, _) = run_over(alloc, "run", TOUCHING.as_bytes(), new_warehouse(alloc)?)?;
    let list = words_of(alloc, "export")?;
    let mut source = MemSource::new(Vec::new(alloc), 4096, Vec::new(alloc));
    let mut sink = MemSink::new(alloc, Vec::from_slice(alloc, &[1])?);
    let ran = boxsum::run(alloc, list.as_slice(), ran.disk, &mut source, &mut sink);
    assert_eq!(rt; ran.status, Status::WriteFault);
    assert_eq!(rt; sink.bytes(), b"".as_slice());
    Ok(())
}

#[test]
fn each_call_of_an_export_fails(rt: HostRuntime) -> Result<(), Fail> {
    let alloc = rt.alloc();
    let (ran, _) = run_over(alloc, "run", TOUCHING.as_bytes(), new_warehouse(alloc)?)?;
    let before = ran.disk.calls();
    let (ran, sink) = run_over(alloc, "export", b"", ran.disk)?;
    assert_eq!(rt;
        sink.bytes(),
        b"add,1,1,2,5,10\nadd,1,2,5,9,7\ncommit,1\n".as_slice()
    );
    let after = ran.disk.calls();
    assert!(rt; before < after && after < 1000);
    for call in 1..after - before + 1 {
        let (ran, _) = run_over(alloc, "run", TOUCHING.as_bytes(), new_warehouse(alloc)?)?;
        let ended = failing_at(alloc, "export", b"", ran.disk, call)?;
        assert_eq!(rt; ended, (Status::DiskFault, 1), "call {call}");
    }
    Ok(())
}
