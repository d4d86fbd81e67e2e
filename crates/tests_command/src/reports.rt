//! Worked reports: grids with what is printed for them, and faults in mid-stream.
use crate::memory::{Step, failing_at, first_wrong, run_over, run_pieces};
use boxsum::Status;
use page_disk::MemDisk;
use std::alloc::Global;
use std::test::Fail;

const STEPS: [Step; 17] = [
    // The function x^2 from 0 to 3.
    Step {
        words: "create 1 --degree 2",
        input: "",
        text: "",
    },
    Step {
        words: "run",
        input: "add,1,1,0,3,1,0,0,1\ncommit,1\n",
        text: "version,1\n",
    },
    Step {
        words: "report",
        input: "grid,now,0,1,3\n",
        text: "grid,1,3\ncell,0,2\ncell,1,14\ncell,2,38\n",
    },
    // Quotes, leading zeros, line ends, an earlier version, and a cell of everything.
    Step {
        words: "report",
        input: "\"grid\",\"now\",00,\"001\",3\r\ngrid,0,0,3,1\ngrid,1,0,4294967294,1",
        text: "grid,1,3\ncell,0,2\ncell,1,14\ncell,2,38\ngrid,0,1\ncell,0,0\ngrid,1,1\ncell,0,54\n",
    },
    Step {
        words: "run",
        input: "withdraw,1,1\ncommit,1\nintegral,1,1,2\n",
        text: "version,2\nintegral,1,14\n",
    },
    Step {
        words: "report",
        input: "grid,1,1,1,2\ngrid,now,1,1,2\n",
        text: "grid,1,2\ncell,0,14\ncell,1,38\ngrid,2,2\ncell,0,0\ncell,1,0\n",
    },
    // The function x * y over a square: the last index runs fastest.
    Step {
        words: "create 2 --degree 1",
        input: "",
        text: "",
    },
    Step {
        words: "run",
        input: "add,1,1,0,2,0,2,1,0,0,0,1\ncommit,1\n",
        text: "version,1\n",
    },
    Step {
        words: "report",
        input: "grid,now,0,1,2,0,2,1\ngrid,9,0,1,1,0,1,1\ngrid,now,0,1,64,0,1,64\ngrid,1,0,1,2,0,1,2\n",
        text: "grid,1,2\ncell,0,0,36\ncell,1,0,108\nnoversion,2\nbad,3\ngrid,1,4\ncell,0,0,9\ncell,0,1,27\ncell,1,0,27\ncell,1,1,81\n",
    },
    // Coordinates below 0.
    Step {
        words: "create 1 --degree 2 --signed 1",
        input: "",
        text: "",
    },
    Step {
        words: "run",
        input: "add,1,1,-3,2,5,0,1,0\ncommit,1\n",
        text: "version,1\n",
    },
    Step {
        words: "report",
        input: "grid,now,-4,3,3\ngrid,now,-2147483648,1,1\ngrid,now,2147483646,1,1\ngrid,now,2147483645,1,1\n",
        text: "grid,1,3\ncell,0,-24\ncell,1,9\ncell,2,0\nbad,2\nbad,3\ngrid,1,1\ncell,0,0\n",
    },
    // A constant function over a cube.
    Step {
        words: "create 3 --degree 0",
        input: "",
        text: "",
    },
    Step {
        words: "run",
        input: "add,1,1,0,2,0,2,0,2,1,1\ncommit,1\n",
        text: "version,1\n",
    },
    Step {
        words: "report",
        input: "grid,now,0,1,2,0,2,1,1,2,1\n",
        text: "grid,1,2\ncell,0,0,0,432\ncell,1,0,0,432\n",
    },
    // Without a degree every line is bad.
    Step {
        words: "create 1",
        input: "",
        text: "",
    },
    Step {
        words: "report",
        input: "grid,now,0,1,3\nsum,now,0,1\n\ngrid,9,0,1,3\n",
        text: "bad,1\nbad,2\nbad,3\nbad,4\n",
    },
];

#[test]
fn reports_on_a_disk(rt: HostRuntime) -> Result<(), Fail> {
    assert_eq!(rt; first_wrong(rt.alloc(), &STEPS)?, None);
    Ok(())
}

// Lines that ask for no grid, and the replies to them, in a warehouse of one dimension with a degree and no version.
const BAD_LINES: [(&str, &str); 16] = [
    ("grid,now,0,1", "bad,1\n"),
    ("grid,now,0,1,1,1", "bad,1\n"),
    ("grid,now,0,0,1", "bad,1\n"),
    ("grid,now,0,1,0", "bad,1\n"),
    ("grid,now,-1,1,1", "bad,1\n"),
    ("grid,now,4294967294,1,1", "bad,1\n"),
    ("grid,now,4294967293,1,1", "grid,0,1\ncell,0,0\n"),
    ("grid,now,0,4294967296,1", "bad,1\n"),
    ("grid,now,0,4294967295,1", "bad,1\n"),
    (
        "grid,now,0,18446744073709551615,18446744073709551615",
        "bad,1\n",
    ),
    ("grid,now,0,1,4096", "bad,1\n"),
    ("grid,4294967295,0,1,1", "noversion,1\n"),
    ("grid,4294967296,0,1,1", "bad,1\n"),
    ("Grid,now,0,1,1", "bad,1\n"),
    ("integral,now,0,1", "bad,1\n"),
    ("grid,now,0,1,1\rX", "bad,1\n"),
];

#[test]
fn lines_that_ask_for_no_grid(rt: HostRuntime) -> Result<(), Fail> {
    let alloc = rt.alloc();
    let mut disk = new_plane(alloc)?;
    for (line, text) in BAD_LINES.iter() {
        let (ran, sink) = run_over(alloc, "report", line.as_bytes(), disk)?;
        assert_eq!(rt; ran.status, Status::Fine);
        assert_eq!(rt; sink.bytes(), text.as_bytes(), "line {line}");
        disk = ran.disk;
    }
    Ok(())
}

// A line that is too long is bad, whatever its bytes, and the next one is read.
#[test]
fn a_line_that_is_too_long(rt: HostRuntime) -> Result<(), Fail> {
    let alloc = rt.alloc();
    let mut input = String::from_str(alloc, "grid,now,0,1,")?;
    for _ in 0..5000u32 {
        input.push_str("0")?;
    }
    input.push_str("1\ngrid,now,0,1,00000000000000000001\n")?;
    let (ran, sink) = run_over(alloc, "report", input.as_bytes(), new_plane(alloc)?)?;
    assert_eq!(rt; ran.status, Status::Fine);
    assert_eq!(rt; sink.bytes(), b"bad,1\ngrid,0,1\ncell,0,0\n".as_slice());
    Ok(())
}

// A warehouse of one dimension with a degree.
fn new_plane(alloc: Global) -> Result<MemDisk, Fail> {
    let (ran, _) = run_over(alloc, "create 1 --degree 2", b"", MemDisk::blank(alloc))?;
    Ok(ran.disk)
}

// The same with the function x^2 from 0 to 3.
fn new_square(alloc: Global) -> Result<MemDisk, Fail> {
    let (ran, _) = run_over(
        alloc,
        "run",
        b"add,1,1,0,3,1,0,0,1\ncommit,1\n",
        new_plane(alloc)?,
    )?;
    Ok(ran.disk)
}

const TWO_GRIDS: &[u8] = b"grid,now,0,1,2\ngrid,now,2,1,1\n";

const TWO_REPLIES: &[u8] = b"grid,1,2\ncell,0,2\ncell,1,14\ngrid,1,1\ncell,0,38\n";

#[test]
fn nothing_is_reported_without_a_warehouse(rt: HostRuntime) -> Result<(), Fail> {
    let alloc = rt.alloc();
    let (ran, sink) = run_over(alloc, "report", TWO_GRIDS, MemDisk::blank(alloc))?;
    assert_eq!(rt; ran.status, Status::NoWarehouse);
    assert_eq!(rt; sink.bytes(), b"".as_slice());
    Ok(())
}

// Where the input fails, the replies to the whole lines before are written, in whatever pieces it comes.
#[test]
fn the_input_of_a_report_fails(rt: HostRuntime) -> Result<(), Fail> {
    let alloc = rt.alloc();
    for piece in [1, 5, 4096] {
        let disk = new_square(alloc)?;
        let (ran, sink) = run_pieces(alloc, "report", TWO_GRIDS, piece, None, None, disk)?;
        assert_eq!(rt; (ran.status, sink.bytes()), (Status::Fine, TWO_REPLIES));
    }
    let disk = new_square(alloc)?;
    let (ran, sink) = run_pieces(alloc, "report", TWO_GRIDS, 15, Some(2), None, disk)?;
    assert_eq!(rt; ran.status, Status::ReadFault);
    assert_eq!(rt; sink.bytes(), b"grid,1,2\ncell,0,2\ncell,1,14\n".as_slice());
    let (ran, sink) = run_pieces(alloc, "report", TWO_GRIDS, 15, Some(1), None, ran.disk)?;
    assert_eq!(rt; ran.status, Status::ReadFault);
    assert_eq!(rt; sink.bytes(), b"".as_slice());
    Ok(())
}

#[test]
fn the_output_of_a_report_fails(rt: HostRuntime) -> Result<(), Fail> {
    let alloc = rt.alloc();
    let disk = new_square(alloc)?;
    let (ran, sink) = run_pieces(alloc, "report", TWO_GRIDS, 15, None, Some(2), disk)?;
    assert_eq!(rt; ran.status, Status::WriteFault);
    assert_eq!(rt; sink.bytes(), b"grid,1,2\ncell,0,2\ncell,1,14\n".as_slice());
    let (ran, sink) = run_pieces(alloc, "report", TWO_GRIDS, 4096, None, Some(1), ran.disk)?;
    assert_eq!(rt;
        (ran.status, sink.bytes()),
        (Status::WriteFault, b"".as_slice())
    );
    Ok(())
}

#[test]
fn each_call_of_a_report_fails(rt: HostRuntime) -> Result<(), Fail> {
    let alloc = rt.alloc();
    let disk = new_square(alloc)?;
    let before = disk.calls();
    let (ran, sink) = run_over(alloc, "report", TWO_GRIDS, disk)?;
    assert_eq!(rt; sink.bytes(), TWO_REPLIES);
    let after = ran.disk.calls();
    assert!(rt; before < after && after < 1000);
    for call in 1..after - before + 1 {
        let ended = failing_at(alloc, "report", TWO_GRIDS, new_square(alloc)?, call)?;
        assert_eq!(rt; ended, (Status::DiskFault, 1), "call {call}");
    }
    Ok(())
}
