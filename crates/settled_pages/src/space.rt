//! The space that the pages of a disk are.
ghost use Rattle.std.specs.Prelude.{◌≡◌, ◌≤◌, length, IsTrue};
ghost use Rattle.settled_pages.specs.Shown.{Finds, pages_shown};

use crate::SettledPages;
use bw_types::Params;
use page_disk::Disk;
use page_layout::Meta;
use ports::{FREE_PAGE, Page, PageFault, Pages};

/// The pages in use of a space, read from the disk on which its pages were found.
///
/// Its map has each page from page 3 on, below the number of pages that were given out, that does not
/// begin as a free page. The disk is lent for as long, and its image and moments stay.
#[derive(Drop)]
pub struct SettledSpace<'a, D: Disk> {
    pub(crate) disk: &'a mut D,
    pub(crate) pages: &'a SettledPages,
    pub(crate) params: Params,
    pub(crate) meta: &'a Meta,
    ghost finds: { IsTrue (D.tells disk.now) → Finds pages.now (D.image disk.now) },
    ghost there: { IsTrue (D.tells disk.now) → meta.now.allotted ≤ length (pages_shown (D.image disk.now) pages.now) },
}

impl<'a, D: Disk> SettledSpace<'a, D> {
    ghost use Rattle.settled_pages.specs.Looked.{disk_of, pages_of, params_of, meta_of, map_of, looked_at};

    /// The space with these params and this meta page, as `SettledPages::roots` answers them.
    pub fn new(
        disk: &'a mut D,
        pages: &'a SettledPages,
        params: Params,
        meta: &'a Meta,
    ) -> SettledSpace<'a, D>
        requires finds { IsTrue (D.tells disk.old) → Finds pages.now (D.image disk.old) }
        requires there { IsTrue (D.tells disk.old) → meta.now.allotted ≤ length (pages_shown (D.image disk.old) pages.now) }
        ensures same_reference { result.disk.ghost_name ≡ disk.entry.ghost_name }
        ensures disk { disk_of result ≡ disk.entry.now }
        ensures pages { pages_of result ≡ pages.now }
        ensures params { params_of result ≡ params }
        ensures meta { meta_of result ≡ meta.now }
    {
        SettledSpace {
            disk,
            pages,
            params,
            meta,
        }
    }
}

impl<'a, D: Disk> Pages for SettledSpace<'a, D> {
    ghost use Rattle.settled_pages.specs.Looked.{Looked, disk_of, params_of, meta_of, map_of, chain_of, IsInOrder, looked_at};

    ghost tells = { λ space. D.tells (disk_of space) };

    ghost map = { λ space. map_of space };

    ghost gets = { λ space. D.reads (disk_of space) };

    ghost faults = { λ space. D.faults (disk_of space) };

    ghost allotted = { λ space. (meta_of space).allotted };

    ghost limit = { λ space. (params_of space).pages };

    ghost chain = { λ space. chain_of space };

    ghost free_in_order = { λ space. IsInOrder space };

    ghost Base = { Looked };

    ghost base = { λ space. looked_at space };

    fn get(&mut self, page: u64, buf: &mut Page) -> Result<(), PageFault> {
        if page < 3 || page >= self.meta.allotted {
            return Err(PageFault::Damaged(page));
        }
        self.pages.get(self.disk, page, buf)?;
        if buf[0] == FREE_PAGE {
            return Err(PageFault::Damaged(page));
        }
        Ok(())
    }
}
