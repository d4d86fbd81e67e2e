//! The free pages of a space that is only read.
ghost use Rattle.std.specs.Prelude.{◌≡◌, IsTrue, IfOk, IfSome, IfNone};
ghost use Rattle.page_layout.specs.declared.free_page.FreePage.{FreePage};
ghost use Rattle.page_disk.specs.Calls.{OnlyReads, any_error};
ghost use Rattle.page_space.specs.Chain.{LeadsOn};
ghost use Rattle.settled_pages.specs.Faults.{is_disk_at_look};

use crate::{LookFault, SettledSpace};
use page_disk::{Disk, Failed};
use page_layout::{FreePage, Spelled};
use ports::{PageFault, blank_page};
use std::alloc::Global;

impl<'a, D: Disk> SettledSpace<'a, D> {
    ghost use Rattle.settled_pages.specs.Looked.{disk_of, meta_of, bytes_of, chain_of, IsInOrder, looked_at};

    // The page that a free page names as the next, 0 for none; None where this is no free page that was
    // given out. At most one read.
    fn next_free(&mut self, page: u64) -> Result<Option<u64>, Failed>
        ensures some { IfOk result (λ found. IfSome found (λ next. IsTrue (D.tells (disk_of self.old))
            → LeadsOn (bytes_of self.old) (meta_of self.old).allotted page (record { next = next }))) }
        ensures none { IfOk result (λ found. IfNone found (IsTrue (D.tells (disk_of self.old)) → (free : FreePage)
            → LeadsOn (bytes_of self.old) (meta_of self.old).allotted page free → ⊥)) }
        ensures looked { looked_at self.new ≡ looked_at self.old }
        ensures reads { OnlyReads D.Disk any_error 1 (disk_of self.old) (disk_of self.new) result }
    {
        if page < 3 || page >= self.meta.allotted {
            return Ok(None);
        }
        let mut buf = blank_page();
        match self.pages.get(self.disk, page, &mut buf) {
            Ok(()) => match FreePage::read(&buf) {
                Some(free) => Ok(Some(free.next)),
                None => Ok(None),
            },
            Err(PageFault::Damaged(_)) => Ok(None),
            Err(PageFault::Disk) => Err(Failed),
        }
    }

    /// The chain of free pages where they are in order, and None exactly where they are not: where a page
    /// of it was never given out or is no free page, or where it never ends. Takes 8 bytes of memory, or
    /// up to twice that, for each page of it. At most as many reads as pages were given out.
    pub fn free_pages(&mut self, alloc: Global) -> Result<Option<Vec<u64>>, LookFault>
        ensures some { IfOk result (λ found. IfSome found (λ pages. IsTrue (D.tells (disk_of self.old))
            → IsInOrder self.old × (pages.items ≡ chain_of self.old))) }
        ensures none { IfOk result (λ found. IfNone found (IsTrue (D.tells (disk_of self.old)) → IsInOrder self.old → ⊥)) }
        ensures looked { looked_at self.new ≡ looked_at self.old }
        ensures reads { OnlyReads D.Disk is_disk_at_look (meta_of self.old).allotted (disk_of self.old) (disk_of self.new) result }
    {
        let allotted = self.meta.allotted;
        let mut page = self.meta.free;
        let mut pages = Vec::new(alloc);
        while page != 0 {
            // Of pages that were given out, so many are all, and one comes twice.
            if pages.len() as u64 >= allotted {
                return Ok(None);
            }
            match self.next_free(page)? {
                Some(next) => match pages.push(page) {
                    Ok(()) => page = next,
                    Err(_) => return Err(LookFault::NoMemory),
                },
                None => return Ok(None),
            }
        }
        Ok(Some(pages))
    }
}
