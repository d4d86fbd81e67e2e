//! A disk over files holds what a disk in memory holds that gets the same calls.
use page_disk::{Area, Disk, Failed, Failure, FileCall, FileDisk, PlainDisk};
use ports::Page;
use std::fs;
use std::os::unix::fs::symlink;
use std::test::Fail;

// A page that tells its number and what it was written by.
fn page_of(page: u64, by: u8) -> Page {
    let mut bytes = [by; 4096];
    bytes[0] = (page % 251) as u8;
    bytes
}

// Writes a row of pages, each at most at the end of the area.
fn write_row<D: Disk>(
    disk: &mut D,
    area: Area,
    first: u64,
    count: u64,
    by: u8,
) -> Result<(), Failed> {
    for page in first..first.saturating_add(count) {
        let page = page.min(disk.len(area)?);
        disk.write(area, page, &page_of(page, by))?;
    }
    Ok(())
}

// Whether an area of the two disks has the same pages.
fn same_area<D: Disk, E: Disk>(one: &mut D, other: &mut E, area: Area) -> Result<bool, Failed> {
    let len = one.len(area)?;
    if other.len(area)? != len {
        return Ok(false);
    }
    for page in 0..len {
        let mut bytes = [0; 4096];
        let mut others = [1; 4096];
        if !one.read(area, page, &mut bytes)?
            || !other.read(area, page, &mut others)?
            || bytes != others
        {
            return Ok(false);
        }
    }
    Ok(true)
}

fn same<D: Disk, E: Disk>(one: &mut D, other: &mut E) -> Result<bool, Failed> {
    Ok(same_area(one, other, Area::Pages)? && same_area(one, other, Area::Journal)?)
}

/// The rows of pages that are written one after another: the area, the first page and how many.
const ROWS: [(Area, u64, u64); 12] = [
    (Area::Pages, 0, 3),
    // It goes on.
    (Area::Pages, 3, 2),
    // It breaks, and goes on over the end.
    (Area::Pages, 1, 9),
    // Over pages of it, and on from there.
    (Area::Pages, 4, 2),
    (Area::Journal, 0, 4),
    // More than are gathered at once, the last of it one.
    (Area::Pages, 10, 129),
    (Area::Journal, 2, 70),
    (Area::Pages, 139, 64),
    (Area::Pages, 203, 1),
    (Area::Journal, 0, 1),
    // Over the end of what is gathered, and before its beginning.
    (Area::Pages, 200, 8),
    (Area::Pages, 199, 2),
];

// Writes all rows to both disks. Where it looks, it compares them after each row.
fn agree<D: Disk>(disk: &mut D, plain: &mut PlainDisk, looks: bool) -> Result<bool, Failed> {
    let mut by = 1;
    let mut agrees = true;
    for (area, first, count) in ROWS {
        write_row(disk, area, first, count, by)?;
        write_row(plain, area, first, count, by)?;
        by = by.wrapping_add(1);
        if looks {
            agrees = agrees && same(disk, plain)?;
        }
    }
    Ok(agrees && same(disk, plain)?)
}

const ROW_PAGES: &str = "page_disk_rows.pages";

const ROW_JOURNAL: &str = "page_disk_rows.journal";

#[test]
fn rows_of_pages_are_kept(rt: HostRuntime) -> Result<(), Fail> {
    for looks in [false, true] {
        let _ = fs::remove_file(&rt, ROW_PAGES);
        let _ = fs::remove_file(&rt, ROW_JOURNAL);
        let mut disk = FileDisk::named(rt.alloc(), rt.clone()?, ROW_PAGES, ROW_JOURNAL);
        let mut plain = PlainDisk::blank(rt.alloc());
        assert_eq!(rt; agree(&mut disk, &mut plain, looks), Ok(true));
        disk.sync()?;
        assert_eq!(rt; disk.last_failure(), None);
        drop(disk);
        let mut disk = FileDisk::named(rt.alloc(), rt.clone()?, ROW_PAGES, ROW_JOURNAL);
        assert_eq!(rt; same(&mut disk, &mut plain), Ok(true));
        assert_eq!(rt;
            [disk.len(Area::Pages)?, disk.len(Area::Journal)?],
            [208, 72]
        );
    }
    fs::remove_file(&rt, ROW_PAGES)?;
    fs::remove_file(&rt, ROW_JOURNAL)?;
    Ok(())
}

const RUN_PAGES: &str = "page_disk_runs.pages";

const RUN_JOURNAL: &str = "page_disk_runs.journal";

// How many whole pages have come to the two files.
fn come(rt: &HostRuntime) -> Result<[u64; 2], Fail> {
    Ok([
        fs::metadata(rt, RUN_PAGES)?.len() / 4096,
        fs::metadata(rt, RUN_JOURNAL)?.len() / 4096,
    ])
}

// A step on the pages of a disk.
#[derive(Clone, Copy)]
enum Step {
    // Writes a row of pages: the first one, how many, and what they are written by.
    Write(u64, u64, u8),
    // Reads a page, and finds what it was written by, or that there is none.
    Read(u64, Option<u8>),
    Sync,
}

// Makes a step. Whether a read found what the step says.
fn as_told<D: Disk>(disk: &mut D, step: Step) -> Result<bool, Failed> {
    match step {
        Step::Write(first, count, by) => {
            write_row(disk, Area::Pages, first, count, by)?;
            Ok(true)
        }
        Step::Read(page, told) => {
            let mut bytes = [0; 4096];
            let there = disk.read(Area::Pages, page, &mut bytes)?;
            match told {
                Some(by) => Ok(there && bytes == page_of(page, by)),
                None => Ok(!there),
            }
        }
        Step::Sync => {
            disk.sync()?;
            Ok(true)
        }
    }
}

/// Steps one after another, and how many whole pages have come to the two files after each.
const STEPS: [(Step, [u64; 2]); 8] = [
    // A read of a page puts what is gathered of its area, and a read of none does not.
    (Step::Read(3, None), [0, 0]),
    (Step::Read(1, Some(1)), [3, 0]),
    // The next pages are gathered anew, and an earlier one puts them. So does one that finds 64.
    (Step::Write(3, 2, 3), [3, 0]),
    (Step::Read(0, Some(1)), [3, 0]),
    (Step::Write(0, 1, 4), [5, 0]),
    (Step::Write(5, 64, 5), [5, 0]),
    (Step::Write(69, 1, 6), [69, 0]),
    (Step::Sync, [70, 2]),
];

#[test]
fn pages_come_to_their_file_in_runs(rt: HostRuntime) -> Result<(), Fail> {
    let _ = fs::remove_file(&rt, RUN_PAGES);
    let _ = fs::remove_file(&rt, RUN_JOURNAL);
    let mut disk = FileDisk::named(rt.alloc(), rt.clone()?, RUN_PAGES, RUN_JOURNAL);
    write_row(&mut disk, Area::Pages, 0, 3, 1)?;
    write_row(&mut disk, Area::Journal, 0, 2, 2)?;
    assert_eq!(rt; [disk.len(Area::Pages)?, disk.len(Area::Journal)?], [3, 2]);
    assert_eq!(rt; come(&rt)?, [0, 0]);
    for (step, pages) in STEPS {
        assert_eq!(rt; (as_told(&mut disk, step), come(&rt)?), (Ok(true), pages));
    }
    fs::remove_file(&rt, RUN_PAGES)?;
    fs::remove_file(&rt, RUN_JOURNAL)?;
    Ok(())
}

const FULL_PAGES: &str = "page_disk_full.pages";

const FULL_JOURNAL: &str = "page_disk_full.journal";

// A device without room takes no byte, and its reads give zeros.
#[test]
fn a_full_device_fails_and_says_so(rt: HostRuntime) -> Result<(), Fail> {
    let _ = fs::remove_file(&rt, FULL_PAGES);
    symlink(&rt, "/dev/full", FULL_PAGES)?;
    let mut disk = FileDisk::named(rt.alloc(), rt.clone()?, FULL_PAGES, FULL_JOURNAL);
    let full = Failure {
        file: FULL_PAGES,
        call: FileCall::Write,
        code: Some(28),
    };
    write_row(&mut disk, Area::Pages, 0, 2, 1)?;
    assert_eq!(rt; disk.last_failure(), None);
    let mut bytes = [7; 4096];
    for _ in 0..2 {
        assert_eq!(rt; disk.read(Area::Pages, 1, &mut bytes), Err(Failed));
        assert_eq!(rt; disk.sync(), Err(Failed));
        assert_eq!(rt; disk.last_failure(), Some(full));
        assert_eq!(rt; disk.len(Area::Pages), Ok(2));
    }
    let said = format!(in rt.alloc(); "{full}")?;
    assert_eq!(rt;
        said.as_str(),
        "page_disk_full.pages: write failed, error 28"
    );

    // The system is not asked for a page past the end.
    assert_eq!(rt; disk.write(Area::Pages, 3, &bytes), Err(Failed));
    assert_eq!(rt; disk.last_failure(), Some(Failure { code: None, ..full }));
    fs::remove_file(&rt, FULL_PAGES)?;
    Ok(())
}

const CLOSED_PAGES: &str = "page_disk_closed.pages";

const CLOSED_JOURNAL: &str = "page_disk_closed.journal";

// A folder stands where a file is to be made.
#[test]
fn a_file_that_cannot_be_opened_is_named(rt: HostRuntime) -> Result<(), Fail> {
    let _ = fs::remove_dir(&rt, CLOSED_JOURNAL);
    fs::create_dir(&rt, CLOSED_JOURNAL)?;
    let mut disk = FileDisk::named(rt.alloc(), rt.clone()?, CLOSED_PAGES, CLOSED_JOURNAL);
    assert_eq!(rt; disk.len(Area::Journal), Err(Failed));
    let said = disk.last_failure();
    assert_eq!(rt;
        said,
        Some(Failure {
            file: CLOSED_JOURNAL,
            call: FileCall::Open,
            code: Some(21),
        })
    );
    fs::remove_dir(&rt, CLOSED_JOURNAL)?;
    Ok(())
}
