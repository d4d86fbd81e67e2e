//! Worked checks: disks that hold a history, disks of which a part is broken, and calls that fail.
use crate::earlier::earlier;
use crate::hostile::{many_boxes, pages_of, with_page};
use crate::memory::{Step, failing_at, first_wrong, new_warehouse, run_over};
use boxsum::Status;
use page_disk::{Area, MemDisk};
use ports::{Page, blank_page};
use std::alloc::Global;
use std::test::Fail;

// Two boxes that touch, of which one is withdrawn.
const TWO_VERSIONS: &str = "add,1,1,2,5,10\nadd,1,2,5,9,7\ncommit,1\nwithdraw,1,1\ncommit,1\n";

const STEPS: [Step; 8] = [
    Step {
        words: "create 1",
        input: "",
        text: "",
    },
    Step {
        words: "check",
        input: "",
        text: "good,0,0\n",
    },
    Step {
        words: "run",
        input: TWO_VERSIONS,
        text: "version,1\nversion,2\n",
    },
    Step {
        words: "check",
        input: "",
        text: "good,2,3\n",
    },
    // The warehouse is as it was.
    Step {
        words: "run",
        input: "sum,1,5,5\nmove,1,2,0,0,1\ncommit,1\ncommit,1\n",
        text: "sum,1,17\nversion,3\nversion,4\n",
    },
    Step {
        words: "check",
        input: "",
        text: "good,4,5\n",
    },
    Step {
        words: "create 3 --degree 1 --signed 1",
        input: "",
        text: "",
    },
    Step {
        words: "check",
        input: "",
        text: "good,0,0\n",
    },
];

#[test]
fn checks_on_a_disk(rt: HostRuntime) -> Result<(), Fail> {
    assert_eq!(rt; first_wrong(rt.alloc(), &STEPS)?, None);
    Ok(())
}

// Whether a check of the disk prints this line.
fn says(alloc: Global, disk: MemDisk, line: &str) -> Result<bool, Fail> {
    let (ran, sink) = run_over(alloc, "check", b"", disk)?;
    Ok(ran.status == Status::Fine && sink.bytes() == line.as_bytes())
}

// The disk of two versions.
fn two_versions(alloc: Global) -> Result<MemDisk, Fail> {
    let (ran, _) = run_over(alloc, "run", TWO_VERSIONS.as_bytes(), new_warehouse(alloc)?)?;
    Ok(ran.disk)
}

// A journal of one page, whose gate is open.
fn open_gate() -> Page {
    let mut page = blank_page();
    page[0] = 1;
    page
}

#[test]
fn disks_with_a_broken_part(rt: HostRuntime) -> Result<(), Fail> {
    let alloc = rt.alloc();
    let (ran, sink) = run_over(alloc, "check", b"", MemDisk::blank(alloc))?;
    assert_eq!(rt; ran.status, Status::NoWarehouse);
    assert!(rt; sink.bytes().is_empty());
    let mut disk = two_versions(alloc)?;
    let pages = pages_of(alloc, &mut disk, Area::Pages)?;
    let journal = pages_of(alloc, &mut disk, Area::Journal)?;
    let zeros = with_page(
        alloc,
        pages.as_slice(),
        journal.as_slice(),
        2,
        &blank_page(),
    )?;
    assert!(rt; says(alloc, zeros, "broken,2\n")?);
    let gate = Vec::from_slice(alloc, &[open_gate()])?;
    let open = MemDisk::holding(alloc, Vec::from_slice(alloc, pages.as_slice())?, gate);
    assert!(rt; says(alloc, open, "broken,1\n")?);
    Ok(())
}

// The part that is due where a page of this kind is all ones.
fn part_of(kind: u8) -> &'static str {
    match kind {
        10 => "broken,3\n",
        _ => "broken,5\n",
    }
}

#[test]
fn each_page_in_use_counts(rt: HostRuntime) -> Result<(), Fail> {
    let alloc = rt.alloc();
    let mut disk = many_boxes(alloc)?;
    let pages = pages_of(alloc, &mut disk, Area::Pages)?;
    let journal = pages_of(alloc, &mut disk, Area::Journal)?;
    for (place, page) in pages.iter().enumerate() {
        if place >= 3 && page[0] != 9 {
            let changed = with_page(
                alloc,
                pages.as_slice(),
                journal.as_slice(),
                place,
                &[1; 4096],
            )?;
            assert!(rt; says(alloc, changed, part_of(page[0]))?);
        }
    }
    assert!(rt; says(alloc, disk, "good,1,65\n")?);
    Ok(())
}

// The page with the last byte of its first point's weight changed: a leaf of points begins with 16 bytes, and a weight ends an entry
// of 44.
fn with_another_weight(page: &Page) -> Page {
    let mut changed = *page;
    changed[59] ^= 1;
    changed
}

#[test]
fn a_weight_that_is_changed(rt: HostRuntime) -> Result<(), Fail> {
    let alloc = rt.alloc();
    let mut disk = many_boxes(alloc)?;
    let pages = pages_of(alloc, &mut disk, Area::Pages)?;
    let journal = pages_of(alloc, &mut disk, Area::Journal)?;
    let mut tried = 0u32;
    for (place, page) in pages.iter().enumerate() {
        if page[0] == 5 {
            let changed = with_page(
                alloc,
                pages.as_slice(),
                journal.as_slice(),
                place,
                &with_another_weight(page),
            )?;
            assert!(rt; says(alloc, changed, "broken,5\n")?);
            tried = tried.saturating_add(1);
        }
    }
    assert!(rt; tried > 0);
    Ok(())
}

#[test]
fn an_earlier_table_is_good(rt: HostRuntime) -> Result<(), Fail> {
    let alloc = rt.alloc();
    let (disk, _) = earlier(alloc)?;
    assert!(rt; says(alloc, disk, "good,1,2\n")?);
    Ok(())
}

#[test]
fn each_call_of_a_check_fails(rt: HostRuntime) -> Result<(), Fail> {
    let alloc = rt.alloc();
    let disk = two_versions(alloc)?;
    let before = disk.calls();
    let (ran, _) = run_over(alloc, "check", b"", disk)?;
    let after = ran.disk.calls();
    assert!(rt; before < after && after < 1000);
    for call in 1..after - before + 1 {
        let ended = failing_at(alloc, "check", b"", two_versions(alloc)?, call)?;
        assert_eq!(rt; ended, (Status::DiskFault, 1), "call {call}");
    }
    Ok(())
}
