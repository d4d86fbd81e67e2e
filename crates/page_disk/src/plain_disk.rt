//! A disk in memory that tells its image and its counts, and keeps no record.
ghost use Rattle.std.specs.Prelude.{◌≡◌, ◌<◌, ◌≤◌, ◌+◌, ◌-◌, ◌^◌, ◌==◌, [], length, min, true, false, Ok, IfOk, IsOk, OnOk, OnErr, is_err};
ghost use Rattle.ports.specs.Count.{CountsFault, Rose};
ghost use Rattle.page_disk.specs.Disk.{IsRead};
ghost use Rattle.page_disk.specs.Image.{Image, area_of, with_area, written_at};

use crate::{Area, Disk, Failed};
use ports::{Page, raised};
use std::alloc::Global;

/// A disk in memory that cannot crash. A write that finds no memory counts as a fault.
#[derive(Drop)]
pub struct PlainDisk {
    pages: Vec<Page>,
    journal: Vec<Page>,
    reads: u64,
    faults: u64,
}

/// Writes a page over one that is there, or behind the last. The latter alone may find no memory, and
/// then the pages are as before.
pub(crate) fn write_page(pages: &mut Vec<Page>, page: u64, buf: &Page) -> Result<(), Failed>
    requires { page ≤ length pages.old.items }
    ensures ok { OnOk result (pages.new.items ≡ written_at pages.old.items page buf.now) }
    ensures err { OnErr result (pages.new.items ≡ pages.old.items) }
    ensures there { page < length pages.old.items → IsOk result }
{
    let place = page as usize;
    if place == pages.len() {
        return pages.push(*buf).map_err(|_| Failed);
    }
    pages[place] = *buf;
    Ok(())
}

impl PlainDisk {
    ghost use Rattle.page_disk.specs.PlainDisk.{image_of, read_count, fault_count};

    /// A disk with no pages.
    pub fn blank(alloc: Global) -> PlainDisk
        ensures image { image_of result ≡ record { pages = []; journal = [] } }
        ensures reads { read_count result ≡ 0 }
        ensures faults { fault_count result ≡ 0 }
    {
        PlainDisk {
            pages: Vec::new(alloc),
            journal: Vec::new(alloc),
            reads: 0,
            faults: 0,
        }
    }

    /// How often a page was read.
    pub fn reads(&self) -> u64
        ensures { result ≡ read_count self.now }
    {
        self.reads
    }

    /// How often a call failed.
    pub fn faults(&self) -> u64
        ensures { result ≡ fault_count self.now }
    {
        self.faults
    }

    fn area(&self, area: Area) -> &[Page]
        ensures { result.now ≡ area_of area (image_of self.now) }
    {
        match area {
            Area::Pages => &self.pages,
            Area::Journal => &self.journal,
        }
    }

    fn failed(&mut self) -> Failed
        ensures image { image_of self.new ≡ image_of self.old }
        ensures reads { self.new.reads ≡ self.old.reads }
        ensures faults { Rose self.old.faults self.new.faults }
        ensures never_falls { self.old.faults ≤ self.new.faults }
    {
        self.faults = raised(self.faults);
        Failed
    }
}

impl Disk for PlainDisk {
    ghost use Rattle.page_disk.specs.PlainDisk.{image_of, read_count, fault_count};

    ghost tells = { λ _. true };

    ghost image = { λ disk. image_of disk };

    ghost moments = { λ _. [] };

    ghost reads = { λ disk. disk.reads };

    ghost faults = { λ disk. disk.faults };

    ghost tells_image = { λ _. tt };

    fn len(&mut self, area: Area) -> Result<u64, Failed>
        ensures answers { result ≡ Ok (length (area_of area (image_of self.old))) }
        ensures stays { self.new ≡ self.old }
    {
        Ok(self.area(area).len() as u64)
    }

    fn read(&mut self, area: Area, page: u64, buf: &mut Page) -> Result<bool, Failed>
        ensures fails { is_err result ≡ (read_count self.old == 2 ^ 64 - 1) }
        ensures ok { IfOk result (λ found. IsRead (area_of area (image_of self.old)) page found buf.new) }
        ensures absent { result ≡ Ok false → buf.new ≡ buf.old }
        ensures faults { CountsFault result (fault_count self.old) (fault_count self.new) }
        ensures reads { read_count self.new ≡ min (read_count self.old + 1) (2 ^ 64 - 1) }
        ensures reads_stay_or_rise { read_count self.old ≤ read_count self.new }
        ensures image { image_of self.new ≡ image_of self.old }
    {
        if self.reads == u64::MAX {
            return Err(self.failed());
        }
        self.reads += 1;
        match self.area(area).get(page as usize) {
            Some(kept) => {
                *buf = *kept;
                Ok(true)
            }
            None => Ok(false),
        }
    }

    // A write that fails, for want of memory alone, leaves the pages as before. A page that is there is
    // written over without memory, so that never fails.
    fn write(&mut self, area: Area, page: u64, buf: &Page) -> Result<(), Failed>
        requires { page ≤ length (area_of area (image_of self.old)) }
        ensures there { page < length (area_of area (image_of self.old)) → IsOk result }
        ensures ok { OnOk result (image_of self.new
            ≡ with_area area (written_at (area_of area (image_of self.old)) page buf.now) (image_of self.old)) }
        ensures err { OnErr result (image_of self.new ≡ image_of self.old) }
        ensures faults { CountsFault result (fault_count self.old) (fault_count self.new) }
        ensures reads { read_count self.new ≡ read_count self.old }
    {
        let answer = match area {
            Area::Pages => write_page(&mut self.pages, page, buf),
            Area::Journal => write_page(&mut self.journal, page, buf),
        };
        match answer {
            Ok(()) => Ok(()),
            Err(_) => Err(self.failed()),
        }
    }

    fn sync(&mut self) -> Result<(), Failed>
        ensures answers { result ≡ Ok record {} }
        ensures stays { self.new ≡ self.old }
    {
        Ok(())
    }
}
