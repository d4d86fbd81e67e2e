//! A cache over a recording disk, which counts its reads.
ghost use Rattle.std.specs.Prelude.{OnOk};
ghost use Rattle.page_disk.specs.MemDisk.{image_of};
ghost use Rattle.page_cache.specs.Cache.{Agrees, kept_pages};

use crate::samples::full;
use page_cache::Cache;
use page_disk::{Area, Disk, Failed, MemDisk};
use ports::PageFault;
use std::alloc::{AllocError, Global};
use std::test::Fail;

// A disk of three pages of ones, twos and threes.
fn three_pages(alloc: Global) -> Result<MemDisk, AllocError> {
    let mut pages = Vec::new(alloc);
    pages.push(full(1))?;
    pages.push(full(2))?;
    pages.push(full(3))?;
    Ok(MemDisk::holding(alloc, pages, Vec::new(alloc)))
}

// The first byte of a page, which is full of it, and the number of reads so far.
fn got(cache: &mut Cache, disk: &mut MemDisk, page: u64) -> (Result<u8, PageFault>, u64)
    requires { Agrees (kept_pages cache.old) (image_of disk.old).pages }
    ensures { Agrees (kept_pages cache.new) (image_of disk.new).pages }
{
    let mut buf = full(77);
    let answer = cache.get(disk, page, &mut buf);
    let byte = if buf == full(buf[0]) { buf[0] } else { 0 };
    (answer.map(|()| byte), disk.reads())
}

// Writes the first page to the disk, and renews it in the cache.
fn rewrite(cache: &mut Cache, disk: &mut MemDisk, byte: u8) -> Result<(), Failed>
    requires { Agrees (kept_pages cache.old) (image_of disk.old).pages }
    ensures { OnOk result (Agrees (kept_pages cache.new) (image_of disk.new).pages) }
{
    let page = full(byte);
    disk.write(Area::Pages, 0, &page)?;
    cache.renew(0, &page);
    Ok(())
}

#[test]
fn a_kept_page_is_not_read_again(rt: HostRuntime) -> Result<(), Fail> {
    let mut disk = three_pages(rt.alloc())?;
    let mut cache = Cache::new(rt.alloc(), 2)?;
    assert_eq!(rt; got(&mut cache, &mut disk, 0), (Ok(1), 1));
    assert_eq!(rt; got(&mut cache, &mut disk, 0), (Ok(1), 1));
    assert_eq!(rt; got(&mut cache, &mut disk, 1), (Ok(2), 2));
    assert_eq!(rt; got(&mut cache, &mut disk, 0), (Ok(1), 2));
    // The page that was used last is kept, and the other one gives way.
    assert_eq!(rt; got(&mut cache, &mut disk, 2), (Ok(3), 3));
    assert_eq!(rt; got(&mut cache, &mut disk, 0), (Ok(1), 3));
    assert_eq!(rt; got(&mut cache, &mut disk, 1), (Ok(2), 4));
    cache.few_law();
    Ok(())
}

#[test]
fn a_renewed_page_is_as_on_the_disk(rt: HostRuntime) -> Result<(), Fail> {
    let mut disk = three_pages(rt.alloc())?;
    let mut cache = Cache::new(rt.alloc(), 2)?;
    // At first the page is not kept.
    rewrite(&mut cache, &mut disk, 8)?;
    assert_eq!(rt; got(&mut cache, &mut disk, 0), (Ok(8), 1));
    assert_eq!(rt; got(&mut cache, &mut disk, 1), (Ok(2), 2));
    rewrite(&mut cache, &mut disk, 9)?;
    assert_eq!(rt; got(&mut cache, &mut disk, 0), (Ok(9), 2));
    assert_eq!(rt; got(&mut cache, &mut disk, 1), (Ok(2), 2));
    Ok(())
}

#[test]
fn a_page_past_the_end_and_a_failed_read(rt: HostRuntime) -> Result<(), Fail> {
    let mut disk = three_pages(rt.alloc())?;
    let mut cache = Cache::new(rt.alloc(), 2)?;
    assert_eq!(rt;
        got(&mut cache, &mut disk, 3),
        (Err(PageFault::Damaged(3)), 1)
    );
    disk.stop_after(0);
    let mut empty = Cache::new(rt.alloc(), 2)?;
    assert_eq!(rt; got(&mut empty, &mut disk, 0), (Err(PageFault::Disk), 2));
    Ok(())
}
