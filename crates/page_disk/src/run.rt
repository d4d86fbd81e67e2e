//! Pages side by side that are still to be written to a file.
ghost use Rattle.std.specs.Prelude.{◌≡◌, ◌≤◌, ◌-◌, ◌↔◌, [], IsTrue, OnOk, OnErr, length};
ghost use Rattle.page_disk.specs.Image.{written_at};

use crate::Failed;
use crate::plain_disk::write_page;
use ports::Page;
use std::alloc::Global;

/// The most pages in a run, which are 256 KiB.
const MOST: u64 = 64;

/// Pages side by side, at most 64, that are still to be written to a file.
#[derive(Drop)]
pub(crate) struct Run {
    /// The number of the first page, if there is one.
    pub first: u64,
    /// The pages. They lie on the heap, since a disk is moved by value.
    pub pages: Vec<Page>,
    ghost bounded: { length pages.items ≤ 64 },
}

impl Run {
    ghost use Rattle.page_disk.specs.Run.{IsIn, IsTaken, place_in};

    /// A run without pages.
    pub fn empty(alloc: Global) -> Run
        ensures { result.pages.items ≡ [] }
    {
        Run {
            first: 0,
            pages: Vec::new(alloc),
        }
    }

    /// Whether this page is one of the run.
    pub fn has(&self, page: u64) -> bool
        ensures { IsTrue result ↔ IsIn self.now page }
    {
        page >= self.first && page - self.first < self.pages.len() as u64
    }

    /// Whether this page can be put: any into a run without pages, else one of the run, or the next
    /// one while there is room.
    pub fn takes(&self, page: u64) -> bool
        ensures { IsTrue result ↔ IsTaken self.now page }
    {
        self.pages.is_empty()
            || (page >= self.first
                && page - self.first <= self.pages.len() as u64
                && page - self.first < MOST)
    }

    /// Puts a page. It fails for want of memory alone, and then the pages are as before; a page that
    /// is one of the run takes none.
    pub fn put(&mut self, page: u64, buf: &Page) -> Result<(), Failed>
        requires taken { IsTaken self.old page }
        ensures first { OnOk result (self.new.first ≡ page - place_in self.old page) }
        ensures ok { OnOk result (self.new.pages.items ≡ written_at self.old.pages.items (place_in self.old page) buf.now) }
        ensures err { OnErr result (self.new.pages.items ≡ self.old.pages.items) }
    {
        if self.pages.is_empty() {
            self.first = page;
        }
        write_page(&mut self.pages, page - self.first, buf)
    }

    /// Gives all pages up, and keeps their room.
    pub fn clear(&mut self)
        ensures { self.new.pages.items ≡ [] }
    {
        self.pages.clear();
    }
}
