//! One area of a recording disk.
ghost use Rattle.std.specs.Prelude.{◌≡◌, ◌<◌, ◌≤◌, ◌-◌, ◌++◌, ◌∷◌, [], length, slice_set, take, OnOk, OnErr};
ghost use Rattle.page_disk.specs.Image.{AreWhole, written_at};
ghost use Rattle.page_disk.specs.History.{area_moments, newest_of};
ghost use Rattle.page_disk.specs.Crash.{AreaLeftBy};
ghost use Rattle.page_disk.specs.Moment.{area_counted, area_settled, then_moment};
ghost use Rattle.page_disk.specs.declared.entry.Entry.TheVariants.{Still};

use crate::entry::Entry;
use crate::pending::{fill, undo};
use crate::{Failed, Torn};
use ports::Page;
use std::alloc::Global;

/// The pages of an area, and one entry for each moment of the disk but the first.
#[derive(Drop)]
pub(crate) struct Half {
    /// The pages, the page 0 first.
    pub pages: Vec<Page>,
    /// What each moment did, the oldest first.
    pub log: Vec<Entry>,
    ghost whole: { AreWhole pages.items },
}

// Each page has its bytes, by its type.
fn are_whole(pages: &[Page])
    ensures { AreWhole pages.now }
{
    let _ = pages.len();
}

impl Half {
    /// An area that holds these pages, with nothing pending.
    pub fn new(alloc: Global, pages: Vec<Page>) -> Half
        ensures pages { result.pages.items ≡ pages.items }
        ensures log { result.log.items ≡ [] }
    {
        are_whole(&pages);
        Half {
            pages,
            log: Vec::new(alloc),
        }
    }

    /// A moment of the other area.
    pub fn still(&mut self) -> Result<(), Failed>
        ensures pages { self.new.pages ≡ self.old.pages }
        ensures log { OnOk result (self.new.log.items ≡ self.old.log.items ++ Still ∷ []) }
        ensures ok { OnOk result (area_moments self.new.pages.items self.new.log.items
            ≡ then_moment (λ m. m) (area_moments self.old.pages.items self.old.log.items)) }
        ensures err { OnErr result (self.new.log.items ≡ self.old.log.items) }
    {
        self.log.push(Entry::Still).map_err(|_| Failed)
    }

    /// Forgets the newest moment, which changed no page.
    pub fn take_back(&mut self)
        ensures pages { self.new.pages ≡ self.old.pages }
        ensures log { self.new.log.items ≡ take (length self.old.log.items - 1) self.old.log.items }
    {
        let _ = self.log.pop();
    }

    /// A sync, before which nothing is to be undone.
    pub fn sync(&mut self) -> Result<(), Failed>
        ensures pages { self.new.pages ≡ self.old.pages }
        ensures log { OnOk result (take (length self.new.log.items - 1) self.new.log.items ≡ self.old.log.items) }
        ensures ok { OnOk result (area_moments self.new.pages.items self.new.log.items
            ≡ then_moment (λ _. area_settled self.old.pages.items) (area_moments self.old.pages.items self.old.log.items)) }
        ensures err { OnErr result (self.new.log.items ≡ self.old.log.items) }
    {
        self.log.push(Entry::Synced).map_err(|_| Failed)
    }

    fn append(&mut self, buf: &Page) -> Result<(), Failed>
        ensures pages { OnOk result (self.new.pages.items ≡ self.old.pages.items ++ buf.now ∷ []) }
        ensures ok { OnOk result (area_moments self.new.pages.items self.new.log.items
            ≡ then_moment (area_counted (length self.old.pages.items)) (area_moments self.old.pages.items self.old.log.items)) }
        ensures err { OnErr result (self.new.log.items ≡ self.old.log.items) }
        ensures err_pages { OnErr result (self.new.pages.items ≡ self.old.pages.items) }
    {
        if self.log.push(Entry::Appended).is_err() {
            return Err(Failed);
        }
        if self.pages.push(*buf).is_err() {
            let _ = self.log.pop();
            return Err(Failed);
        }
        Ok(())
    }

    fn overwrite(&mut self, alloc: Global, page: u64, buf: &Page) -> Result<(), Failed>
        requires { page < length self.old.pages.items }
        ensures pages { OnOk result (self.new.pages.items ≡ slice_set self.old.pages.items page buf.now) }
        ensures ok { OnOk result (area_moments self.new.pages.items self.new.log.items
            ≡ then_moment (area_counted page) (area_moments self.old.pages.items self.old.log.items)) }
        ensures err { OnErr result (self.new.log.items ≡ self.old.log.items) }
        ensures err_pages { OnErr result (self.new.pages.items ≡ self.old.pages.items) }
    {
        let place = page as usize;
        let Ok(before) = Box::new(alloc, self.pages[place]) else {
            return Err(Failed);
        };
        if self.log.push(Entry::Overwrote(page, before)).is_err() {
            return Err(Failed);
        }
        self.pages[place] = *buf;
        Ok(())
    }

    /// Writes a page, which at the end appends.
    pub fn write(&mut self, alloc: Global, page: u64, buf: &Page) -> Result<(), Failed>
        requires { page ≤ length self.old.pages.items }
        ensures pages { OnOk result (self.new.pages.items ≡ written_at self.old.pages.items page buf.now) }
        ensures ok { OnOk result (area_moments self.new.pages.items self.new.log.items
            ≡ then_moment (area_counted page) (area_moments self.old.pages.items self.old.log.items)) }
        ensures err { OnErr result (self.new.log.items ≡ self.old.log.items) }
        ensures err_pages { OnErr result (self.new.pages.items ≡ self.old.pages.items) }
    {
        if page as usize == self.pages.len() {
            self.append(buf)
        } else {
            self.overwrite(alloc, page, buf)
        }
    }

    /// The area as the crash leaves it, with nothing pending.
    pub fn crash(self, alloc: Global, torn: Torn) -> Half
        ensures pages { AreaLeftBy torn (newest_of (area_moments self.pages.items self.log.items)) self.pages.items result.pages.items }
        ensures log { result.log.items ≡ [] }
    {
        let Half { mut pages, log } = self;
        match torn {
            Torn::Lost => undo(&mut pages, log),
            Torn::Landed => {}
            Torn::Filled(byte) => fill(&mut pages, log, byte),
        }
        Half::new(alloc, pages)
    }
}
