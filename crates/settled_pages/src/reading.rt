//! A page of those that were found.
ghost use Rattle.std.specs.Prelude.{◌≡◌, ◌≤◌, ◌<◌, ◌↔◌, ℕ, Err, IsTrue, OnOk, length};
ghost use Rattle.page_disk.specs.Calls.{OnlyReads};
ghost use Rattle.page_disk.specs.Image.{Image, page_at};
ghost use Rattle.settled_pages.specs.Faults.{is_disk_at_page};
ghost use Rattle.settled_pages.specs.Places.{IsSplitAt, place_in};

use crate::SettledPages;
use page_disk::{Area, Disk};
use ports::{Page, PageFault};

impl SettledPages {
    ghost use Rattle.settled_pages.specs.Shown.{Finds, pages_shown, source_of};

    // How many of the images belong to pages below this one.
    fn count_below(&self, page: u64) -> usize
        ensures { IsSplitAt self.now.places.items result page }
    {
        self.places
            .as_slice()
            .partition_point(|image| image.home < page)
    }

    // The place of the page's image in the journal, if it has one.
    fn place_of(&self, page: u64) -> Option<u64>
        ensures { result ≡ place_in self.now.places.items page }
    {
        match self.places.get(self.count_below(page)) {
            Some(image) => (image.home == page).then_some(image.place),
            None => None,
        }
    }

    // Where the bytes of the page stand.
    fn source(&self, page: u64) -> (Area, u64)
        ensures { result ≡ source_of (place_in self.now.places.items page) page }
    {
        match self.place_of(page) {
            Some(place) => (Area::Journal, place),
            None => (Area::Pages, page),
        }
    }

    /// Whether the pages reach past this one.
    pub fn reaches(&self, page: u64) -> bool
        ensures { (x : Image) → Finds self.now x → IsTrue result ↔ (page < length (pages_shown x self.now)) }
    {
        page < self.area || page <= self.last
    }

    /// Reads a page, as an opening would find it, from the disk that the pages were found on. At most one
    /// read.
    ///
    /// `Damaged` carries this page. It comes exactly where the page is at or past the end, save where
    /// the device failed first.
    pub fn get<D: Disk>(&self, disk: &mut D, page: u64, buf: &mut Page) -> Result<(), PageFault>
        requires { IsTrue (D.tells disk.old) → Finds self.now (D.image disk.old) }
        ensures ok { OnOk result (IsTrue (D.tells disk.old) → (page < length (pages_shown (D.image disk.old) self.now))
            × (buf.new ≡ page_at (pages_shown (D.image disk.old) self.now) page)) }
        ensures damaged { (p : ℕ) → result ≡ Err (PageFault.Damaged p)
            → (p ≡ page) × (IsTrue (D.tells disk.old) → length (pages_shown (D.image disk.old) self.now) ≤ page) }
        ensures reads { OnlyReads D.Disk is_disk_at_page 1 disk.old disk.new result }
    {
        if !self.reaches(page) {
            return Err(PageFault::Damaged(page));
        }
        let (area, at) = self.source(page);
        match disk.read(area, at, buf) {
            Ok(true) => Ok(()),
            Ok(false) => Err(PageFault::Damaged(page)),
            Err(_) => Err(PageFault::Disk),
        }
    }
}
