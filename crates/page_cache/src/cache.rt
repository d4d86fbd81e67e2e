//! The pages that were used last.
ghost use Rattle.std.specs.Prelude.{◌≡◌, ◌≢◌, ◌⊎◌, ◌+◌, ◌-◌, ◌^◌, ◌<◌, ◌≤◌, ℕ, List, length, min, Some, None, Ok, Err, IsTrue, IfOk, IfSome, OnOk, OnErr, is_some};
ghost use Rattle.std.specs.Box.{box_value};
ghost use Rattle.page_disk.specs.Calls.{OnlyReads};
ghost use Rattle.page_disk.specs.Image.{PageList, page_at, written_at};
ghost use Rattle.page_cache.specs.Cache.{Agrees, KeepsAtMost, KeepsNoOther, capacity, is_disk, kept_pages, renewed};

use lru::LruCache;
use page_disk::{Area, Disk};
use ports::{Page, PageFault};
use std::alloc::Global;
use std::num::NonZeroUsize;

/// There was no memory.
#[derive(Clone, Copy, Debug, PartialEq, Eq)]
pub struct NoMemory;

/// A cache of pages of a disk's Pages area.
#[derive(Drop)]
pub struct Cache {
    pages: LruCache<u64, Box<Page>>,
    // The room of the page that gave way last, for the next one.
    spare: Option<Box<Page>>,
    alloc: Global,
}

impl Cache {
    /// A cache that keeps at most this many pages, which is not 0, and as yet none. It agrees with every disk.
    pub fn new(alloc: Global, pages: usize) -> Result<Cache, NoMemory>
        requires { pages ≢ 0 }
        ensures none { IfOk result (λ cache. (page : ℕ) → kept_pages cache page ≡ None) }
        ensures capacity { IfOk result (λ cache. capacity cache ≡ pages) }
        ensures few { IfOk result (λ cache. KeepsAtMost (kept_pages cache) pages) }
        ensures agrees { IfOk result (λ cache. (area : PageList) → Agrees (kept_pages cache) area) }
    {
        let capacity = NonZeroUsize::new(pages).unwrap();
        match LruCache::new(alloc, capacity) {
            Ok(pages) => Ok(Cache {
                pages,
                spare: None,
                alloc,
            }),
            Err(_) => Err(NoMemory),
        }
    }

    // Copies the page into `buf` where it is kept, and answers whether it is.
    fn recall(&mut self, page: u64, buf: &mut Page) -> bool
        ensures value { result ≡ is_some (kept_pages self.old page) }
        ensures hit { (bytes : List ℕ) → kept_pages self.old page ≡ Some bytes → buf.new ≡ bytes }
        ensures miss { kept_pages self.old page ≡ None → buf.new ≡ buf.old }
        ensures same { (p : ℕ) → kept_pages self.new p ≡ kept_pages self.old p }
        ensures capacity { capacity self.new ≡ capacity self.old }
    {
        match self.pages.get(&page) {
            Some(kept) => {
                *buf = **kept;
                true
            }
            None => false,
        }
    }

    // A copy of the page, in the room of the page that gave way last where there is one.
    fn copied(&mut self, buf: &Page) -> Option<Box<Page>>
        ensures value { IfSome result (λ copy. box_value copy ≡ buf.now) }
        ensures pages { self.new.pages ≡ self.old.pages }
    {
        match self.spare.take() {
            Some(mut room) => {
                *room = *buf;
                Some(room)
            }
            None => Box::new(self.alloc, *buf).ok(),
        }
    }

    // Keeps the page where there is memory for it.
    fn keep(&mut self, page: u64, buf: &Page)
        ensures also { KeepsNoOther (kept_pages self.old) (kept_pages self.new) page buf.now }
        ensures capacity { capacity self.new ≡ capacity self.old }
    {
        let Some(copy) = self.copied(buf) else {
            return;
        };
        match self.pages.push(page, copy) {
            Ok(Some((_, room))) => self.spare = Some(room),
            Ok(None) => {}
            // Where the page finds no place its room is kept, and the page is as if it had given way.
            Err(failed) => self.spare = Some(failed.value.1),
        }
    }

    /// Proves that no more pages are kept than the capacity says; it does nothing when it runs.
    pub fn few_law(&self)
        ensures { KeepsAtMost (kept_pages self.now) (capacity self.now) }
    {
        let _len = self.pages.len();
    }

    /// Reads a page of the Pages area into `buf`, as the disk has it, with no call on the disk where
    /// the page is kept and one read else. The cache has to agree with the disk, and does afterwards.
    ///
    /// `Damaged` carries this page. It comes exactly where the page is at or past the end, save where
    /// the device failed first, and `buf` is then as before. After `Disk` what `buf` holds is not said.
    /// After both the cache keeps the pages that it kept.
    pub fn get<D: Disk>(&mut self, disk: &mut D, page: u64, buf: &mut Page) -> Result<(), PageFault>
        requires { IsTrue (D.tells disk.old) → Agrees (kept_pages self.old) (D.image disk.old).pages }
        ensures agrees { IsTrue (D.tells disk.old) → Agrees (kept_pages self.new) (D.image disk.new).pages }
        ensures ok { OnOk result (IsTrue (D.tells disk.old)
            → (page < length (D.image disk.old).pages) × (buf.new ≡ page_at (D.image disk.old).pages page)) }
        ensures damaged { (p : ℕ) → result ≡ Err (PageFault.Damaged p)
            → (p ≡ page) × (buf.new ≡ buf.old) × (IsTrue (D.tells disk.old) → length (D.image disk.old).pages ≤ page) }

        ensures hit { (bytes : List ℕ) → kept_pages self.old page ≡ Some bytes
            → (result ≡ Ok record {}) × (buf.new ≡ bytes)
            × (D.reads disk.new ≡ D.reads disk.old)
            × ((p : ℕ) → kept_pages self.new p ≡ kept_pages self.old p) }
        ensures keeps { OnOk result (KeepsNoOther (kept_pages self.old) (kept_pages self.new) page buf.new) }
        ensures keeps_err { OnErr result ((p : ℕ) → kept_pages self.new p ≡ kept_pages self.old p) }
        ensures capacity { capacity self.new ≡ capacity self.old }
        ensures few { KeepsAtMost (kept_pages self.new) (capacity self.new) }

        ensures miss { kept_pages self.old page ≡ None → D.reads disk.new ≡ min (D.reads disk.old + 1) (2 ^ 64 - 1) }
        ensures reads { OnlyReads D.Disk is_disk 1 disk.old disk.new result }
    {
        if self.recall(page, buf) {
            self.few_law();
            return Ok(());
        }
        self.few_law();
        match disk.read(Area::Pages, page, buf) {
            Ok(true) => {
                self.keep(page, buf);
                self.few_law();
                Ok(())
            }
            Ok(false) => Err(PageFault::Damaged(page)),
            Err(_) => Err(PageFault::Disk),
        }
    }

    // Overwrites the page where it is kept.
    fn rewrite(&mut self, page: u64, buf: &Page)
        ensures pages { (p : ℕ) → kept_pages self.new p ≡ renewed (kept_pages self.old) page buf.now p }
        ensures capacity { capacity self.new ≡ capacity self.old }
    {
        if let Some(kept) = self.pages.peek_mut(&page) {
            **kept = *buf;
        }
    }

    /// Overwrites the page where it is kept, and else does nothing. Every other page stays as it is.
    ///
    /// So a cache that agreed with the disk before the page was written to it agrees again.
    pub fn renew(&mut self, page: u64, buf: &Page)
        ensures pages { (p : ℕ) → kept_pages self.new p ≡ renewed (kept_pages self.old) page buf.now p }
        ensures agrees { (area : PageList) → Agrees (kept_pages self.old) area
            → Agrees (kept_pages self.new) (written_at area page buf.now) }
        ensures capacity { capacity self.new ≡ capacity self.old }
        ensures few { KeepsAtMost (kept_pages self.new) (capacity self.new) }
    {
        self.rewrite(page, buf);
        self.few_law();
    }
}
