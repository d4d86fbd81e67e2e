//! What the fakes and the files do, as the model of a disk says.
use crate::samples::full;
use page_disk::{Area, Disk, Failed, FileDisk, MemDisk, PlainDisk, Torn, crash_laws};
use std::alloc::{AllocError, Global};
use std::fs;
use std::test::Fail;

fn append<D: Disk>(disk: &mut D, area: Area, byte: u8) -> Result<u64, Failed> {
    let page = disk.len(area)?;
    disk.write(area, page, &full(byte))?;
    Ok(page)
}

// Writes over the first page.
fn overwrite<D: Disk>(disk: &mut D, area: Area, byte: u8) -> Result<(), Failed> {
    disk.write(area, 0, &full(byte))
}

// The first byte of a page, if it is there and full of it.
fn byte_of<D: Disk>(disk: &mut D, area: Area, page: u64) -> Result<Option<u8>, Failed> {
    let mut buf = full(77);
    if !disk.read(area, page, &mut buf)? {
        return Ok(if buf == full(77) { None } else { Some(0) });
    }
    Ok(if buf == full(buf[0]) {
        Some(buf[0])
    } else {
        None
    })
}

// Two pages in the one area and one in the other, on a disk without pages.
fn fill_up<D: Disk>(disk: &mut D) -> Result<(), Failed> {
    append(disk, Area::Pages, 1)?;
    append(disk, Area::Pages, 2)?;
    append(disk, Area::Journal, 3)?;
    overwrite(disk, Area::Pages, 4)?;
    disk.sync()
}

/// The lengths of the two areas, then the first three pages of the one and the first of the other.
type Shown = ((u64, u64), [Option<u8>; 3], Option<u8>);

fn shown<D: Disk>(disk: &mut D) -> Result<Shown, Failed> {
    let lengths = (disk.len(Area::Pages)?, disk.len(Area::Journal)?);
    let mut pages = [None; 3];
    for (page, byte) in pages.iter_mut().enumerate() {
        *byte = byte_of(disk, Area::Pages, page as u64)?;
    }
    Ok((lengths, pages, byte_of(disk, Area::Journal, 0)?))
}

const FILLED_UP: Shown = ((2, 1), [Some(4), Some(2), None], Some(3));

#[test]
fn a_recording_disk_reads_back(rt: HostRuntime) -> Result<(), Fail> {
    let mut disk = MemDisk::blank(rt.alloc());
    fill_up(&mut disk)?;
    assert_eq!(rt; shown(&mut disk), Ok(FILLED_UP));
    assert_eq!(rt; [disk.reads(), disk.calls(), disk.faults()], [4, 14, 0]);
    Ok(())
}

#[test]
fn a_plain_disk_reads_back(rt: HostRuntime) -> Result<(), Fail> {
    let mut disk = PlainDisk::blank(rt.alloc());
    fill_up(&mut disk)?;
    assert_eq!(rt; shown(&mut disk), Ok(FILLED_UP));
    assert_eq!(rt; [disk.reads(), disk.faults()], [4, 0]);
    Ok(())
}

// A disk with one synced page of ones, which is written over by twos, and a page of threes behind it.
fn pending(alloc: Global) -> Result<MemDisk, Fail> {
    let mut pages = Vec::new(alloc);
    pages.push(full(1)).map_err(AllocError::from)?;
    let mut disk = MemDisk::holding(alloc, pages, Vec::new(alloc));
    overwrite(&mut disk, Area::Pages, 2)?;
    append(&mut disk, Area::Pages, 3)?;
    append(&mut disk, Area::Journal, 4)?;
    Ok(disk)
}

const LANDED: Shown = ((2, 1), [Some(2), Some(3), None], Some(4));

#[test]
fn a_crash_leaves_what_its_kind_says(rt: HostRuntime) -> Result<(), Fail> {
    let table = [
        (Torn::Lost, ((1, 0), [Some(1), None, None], None)),
        (Torn::Landed, LANDED),
        (
            Torn::Filled(255),
            ((2, 1), [Some(255), Some(255), None], Some(255)),
        ),
    ];
    for (torn, left) in table {
        let mut disk = pending(rt.alloc())?.crash(torn);
        assert_eq!(rt; shown(&mut disk), Ok(left));
    }
    Ok(())
}

// A disk whose writes are synced, and which has stopped then.
fn stopped(alloc: Global) -> Result<MemDisk, Fail> {
    let mut disk = pending(alloc)?;
    disk.sync()?;
    disk.stop_after(0);
    if overwrite(&mut disk, Area::Pages, 9).is_ok() {
        disk.stop_after(u64::MAX);
    }
    Ok(disk)
}

#[test]
fn a_crash_keeps_what_is_synced(rt: HostRuntime) -> Result<(), Fail> {
    for torn in [Torn::Lost, Torn::Landed, Torn::Filled(255)] {
        let mut disk = stopped(rt.alloc())?.crash(torn);
        assert_eq!(rt; shown(&mut disk), Ok(LANDED));
        assert_eq!(rt; disk.faults(), 0);
    }
    Ok(())
}

#[test]
fn planned_calls_fail(rt: HostRuntime) -> Result<(), Fail> {
    let mut disk = MemDisk::blank(rt.alloc());
    disk.sync()?;
    let failing = [2, 4].to_vec(rt.alloc())?;
    disk.fail_at(failing);
    for fails in [false, true, false, true, false] {
        assert_eq!(rt; disk.sync().is_err(), fails);
    }
    disk.stop_after(1);
    for fails in [false, true, true] {
        assert_eq!(rt; disk.len(Area::Pages).is_err(), fails);
    }
    assert_eq!(rt; [disk.calls(), disk.faults()], [9, 4]);
    Ok(())
}

const PAGES: &str = "page_disk_test.pages";

const JOURNAL: &str = "page_disk_test.journal";

// Puts a part of a page behind the last.
fn add_part(rt: &HostRuntime) -> Result<usize, Fail> {
    let mut bytes = fs::read(rt, PAGES)?;
    let len = bytes.len();
    bytes.extend_from_slice(&[8; 100])?;
    fs::write(rt, PAGES, bytes.as_slice())?;
    Ok(len)
}

#[test]
fn files_keep_pages(rt: HostRuntime) -> Result<(), Fail> {
    let _ = fs::remove_file(&rt, PAGES);
    let _ = fs::remove_file(&rt, JOURNAL);
    let mut disk = FileDisk::named(rt.alloc(), rt.clone()?, PAGES, JOURNAL);
    fill_up(&mut disk)?;
    assert_eq!(rt; disk.write(Area::Pages, 3, &full(9)), Err(Failed));
    drop(disk);
    assert_eq!(rt; add_part(&rt)?, 2 * 4096);

    // The part doesn't count as a page, and makes way for the next one.
    let mut disk = FileDisk::named(rt.alloc(), rt.clone()?, PAGES, JOURNAL);
    assert_eq!(rt; shown(&mut disk), Ok(FILLED_UP));
    assert_eq!(rt; append(&mut disk, Area::Pages, 6), Ok(2));
    assert_eq!(rt; byte_of(&mut disk, Area::Pages, 2), Ok(Some(6)));
    fs::remove_file(&rt, PAGES)?;
    fs::remove_file(&rt, JOURNAL)?;
    Ok(())
}

const PLACED_PAGES: &str = "page_disk_places.pages";

const PLACED_JOURNAL: &str = "page_disk_places.journal";

// Wherever the last call left the file, a page is read and written at its own place.
#[test]
fn files_are_read_and_written_at_any_place(rt: HostRuntime) -> Result<(), Fail> {
    let _ = fs::remove_file(&rt, PLACED_PAGES);
    let _ = fs::remove_file(&rt, PLACED_JOURNAL);
    let mut disk = FileDisk::named(rt.alloc(), rt.clone()?, PLACED_PAGES, PLACED_JOURNAL);
    fill_up(&mut disk)?;
    for (page, byte) in [(1, 2), (0, 4)] {
        assert_eq!(rt; byte_of(&mut disk, Area::Pages, page), Ok(Some(byte)));
    }
    assert_eq!(rt; append(&mut disk, Area::Pages, 5), Ok(2));
    disk.sync()?;
    overwrite(&mut disk, Area::Pages, 6)?;
    for (page, byte) in [(1, 2), (2, 5), (0, 6)] {
        assert_eq!(rt; byte_of(&mut disk, Area::Pages, page), Ok(Some(byte)));
    }
    disk.sync()?;
    drop(disk);
    let mut disk = FileDisk::named(rt.alloc(), rt.clone()?, PLACED_PAGES, PLACED_JOURNAL);
    assert_eq!(rt;
        shown(&mut disk),
        Ok(((3, 1), [Some(6), Some(2), Some(5)], Some(3)))
    );
    fs::remove_file(&rt, PLACED_PAGES)?;
    fs::remove_file(&rt, PLACED_JOURNAL)?;
    Ok(())
}

#[test]
fn laws_do_nothing(_: HostRuntime) -> Result<(), Fail> {
    crash_laws();
    Ok(())
}
