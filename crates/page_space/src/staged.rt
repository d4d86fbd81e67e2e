//! A stage of changes on a space.
ghost use Rattle.std.specs.Prelude.{◌≡◌, ◌⊎◌, ◌+◌, ◌≤◌, ◌<◌, ℕ, List, length, Some, None, Ok, Err, IsTrue, IsSome, OnOk, OnErr, IfOk};
ghost use Rattle.ports.specs.Calls.{OnlyReads, WentOn};
ghost use Rattle.ports.specs.Pages.{PageMap, put_page};
ghost use Rattle.page_layout.specs.FreePage.{next_fits};
ghost use Rattle.redo_journal.specs.Images.{image_map};
ghost use Rattle.page_space.specs.Bytes.{bytes_with};
ghost use Rattle.page_space.specs.MetaSet.{FitsBesideCounts, with_counts_of};
ghost use Rattle.page_space.specs.Space.{AreRoots};

use crate::Space;
use crate::copying::copied;
use crate::opening::META_PAGE;
use page_disk::Disk;
use page_layout::{Meta, Spelled};
use ports::{FREE_PAGE, Page, PageFault, Pages, blank_page};
use redo_journal::{Images, NoMemory};

/// Changes on a space that are not committed yet: the images of the pages that are changed, and the
/// meta page as it is to be.
#[derive(Drop)]
pub struct Staged<D: Disk> {
    pub(crate) space: Space<D>,
    pub(crate) images: Images,
    pub(crate) meta: Meta,
    ghost few: { meta.allotted ≤ space.params.pages },
    ghost grown: { space.meta.allotted ≤ meta.allotted },
    // Each page that was given out since the stage began has an image.
    ghost fresh: { (page : ℕ) → space.meta.allotted ≤ page → page < meta.allotted → IsSome (image_map images page) },
    ghost within: { (page : ℕ) → IsSome (image_map images page) → (2 ≤ page) × (page < meta.allotted) },
    ghost first: { IsTrue (next_fits meta.free) },
}

impl<D: Disk> Space<D> {
    ghost use Rattle.page_space.specs.Shown.{disk_of, meta_of, begun_of, map_of, chain_of, IsInOrder, base_of, disk_under, staged_meta, staged_map, staged_chain, image_count, IsStagedInOrder};

    /// Begins a stage on the space, which as yet changes nothing.
    pub fn begin(self) -> Staged<D>
        ensures base { base_of result ≡ begun_of self }
        ensures disk { disk_under result ≡ disk_of self }
        ensures meta { staged_meta result ≡ meta_of self }
        ensures map { staged_map result ≡ map_of self }
        ensures chain { staged_chain result ≡ chain_of self }
        ensures in_order { IsInOrder self → IsStagedInOrder result }
        ensures images { image_count result ≡ 0 }
        ensures roots { AreRoots (base_of result).params (base_of result).meta }
    {
        Staged {
            images: Images::new(self.alloc),
            meta: copied(&self.meta),
            space: self,
        }
    }
}

impl<D: Disk> Staged<D> {
    ghost use Rattle.page_space.specs.Calls.{KeepsChanges};
    ghost use Rattle.page_space.specs.Shown.{disk_of, begun_of, base_of, disk_under, staged_meta, staged_bytes, staged_map, staged_chain, image_count, IsStagedInOrder, IsMetaSet};

    /// Reads a page, in use or not: its image where there is one, and else as the disk has it.
    pub(crate) fn read(&mut self, page: u64, buf: &mut Page) -> Result<(), PageFault>
        ensures ok { OnOk result (IsTrue (D.tells (disk_under self.old)) → buf.new ≡ staged_bytes self.old page) }
        ensures damaged { (p : ℕ) → result ≡ Err (PageFault.Damaged p)
            → (p ≡ page) × (IsTrue (D.tells (disk_under self.old)) → (staged_meta self.old).allotted ≤ page) }
        ensures reads { OnlyReads ⟦<Staged<D> as Pages>⟧ 1 self.old self.new result }
        ensures keeps { KeepsChanges self.old self.new }
    {
        if let Some(image) = self.images.get(page) {
            *buf = *image;
            return Ok(());
        }
        self.space.read(page, buf)
    }

    /// Reads a page that is in use, and changes nothing: a meta page that was set stays so.
    ///
    /// `Damaged` carries this page. It comes exactly where the page is not in the map, save where the
    /// device failed first.
    pub fn get_page(&mut self, page: u64, buf: &mut Page) -> Result<(), PageFault>
        ensures bytes { OnOk result (IsTrue (D.tells (disk_under self.old)) → staged_map self.old page ≡ Some buf.new) }
        ensures damaged { (p : ℕ) → result ≡ Err (PageFault.Damaged p)
            → (p ≡ page) × (IsTrue (D.tells (disk_under self.old)) → staged_map self.old page ≡ None) }
        ensures set { IsMetaSet self.old → IsMetaSet self.new }
        ensures reads { OnlyReads ⟦<Staged<D> as Pages>⟧ 1 self.old self.new result }
        ensures keeps { KeepsChanges self.old self.new }
    {
        if page < 3 || page >= self.meta.allotted {
            return Err(PageFault::Damaged(page));
        }
        self.read(page, buf)?;
        if buf[0] == FREE_PAGE {
            return Err(PageFault::Damaged(page));
        }
        Ok(())
    }

    // Puts the image of a page that was given out, or of the meta page.
    pub(crate) fn put_image(&mut self, page: u64, image: &Page) -> Result<(), NoMemory>
        requires low { 2 ≤ page }
        requires high { page < (staged_meta self.old).allotted }
        ensures ok { OnOk result (image_map self.new.images ≡ put_page (image_map self.old.images) page image.now) }
        ensures err { OnErr result (image_map self.new.images ≡ image_map self.old.images) }
        ensures stays { OnErr result (WentOn ⟦<Staged<D> as Pages>⟧ 0 self.old self.new) }
        ensures bytes { OnOk result (staged_bytes self.new ≡ bytes_with (staged_bytes self.old) page image.now) }
        ensures images { image_count self.new ≤ image_count self.old + 1 }
        ensures space { self.new.space ≡ self.old.space }
        ensures meta { staged_meta self.new ≡ staged_meta self.old }
    {
        self.images.put(page, image)
    }

    /// Sets the meta page, save the number of pages given out and the first free page, which the stage
    /// keeps itself. Where there is no memory all is as before.
    pub fn set_meta(&mut self, meta: &Meta) -> Result<(), NoMemory>
        requires { FitsBesideCounts meta.now }
        ensures ok { OnOk result (staged_meta self.new ≡ with_counts_of (staged_meta self.old) meta.now) }
        ensures set { OnOk result (IsMetaSet self.new) }
        ensures err { OnErr result (staged_meta self.new ≡ staged_meta self.old) }
        // What could be committed before can still be committed.
        ensures err_set { OnErr result (IsMetaSet self.old → IsMetaSet self.new) }
        ensures map { staged_map self.new ≡ staged_map self.old }
        ensures chain { staged_chain self.new ≡ staged_chain self.old }
        ensures in_order { IsStagedInOrder self.old → IsStagedInOrder self.new }
        ensures images { image_count self.new ≤ image_count self.old + 1 }
        ensures base { base_of self.new ≡ base_of self.old }
        ensures disk { disk_under self.new ≡ disk_under self.old }
    {
        let mut set = copied(meta);
        let (allotted, free) = (self.meta.allotted, self.meta.free);
        set.allotted = allotted;
        set.free = free;
        let mut page = blank_page();
        set.write(&mut page);
        self.put_image(META_PAGE, &page)?;
        self.meta = set;
        Ok(())
    }

    /// Gives the space back as it was when the stage began.
    pub fn abandon(self) -> Space<D>
        ensures base { begun_of result ≡ base_of self }
        ensures disk { disk_of result ≡ disk_under self }
    {
        let Staged {
            space,
            images: _,
            meta: _,
        } = self;
        space
    }
}
