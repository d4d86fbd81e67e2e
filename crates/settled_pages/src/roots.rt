//! The superblock and the meta page among the pages that were found.
ghost use Rattle.std.specs.Prelude.{◌≡◌, ◌≤◌, length, IsTrue, IfOk, IfSome, IfNone};
ghost use Rattle.bw_types.specs.Fits.{IsInRange};
ghost use Rattle.bw_types.specs.declared.params.Params.{Params};
ghost use Rattle.page_layout.specs.declared.meta.Meta.{Meta};
ghost use Rattle.page_layout.specs.Meta.{IsMeta, IsTyped};
ghost use Rattle.ports.specs.Pages.{PageMap};
ghost use Rattle.page_disk.specs.Calls.{OnlyReads, any_error};
ghost use Rattle.page_disk.specs.Image.{page_at};
ghost use Rattle.page_space.specs.Chain.{FreeInOrder};
ghost use Rattle.page_space.specs.Opening.{HasNoMeta, HasNoParams};
ghost use Rattle.page_space.specs.Space.{AreRoots, HoldsSpace, SpellsMeta, SpellsParams};
ghost use Rattle.page_space.specs.InUse.{pages_in_use};

use crate::SettledPages;
use bw_types::Params;
use page_disk::{Disk, Failed};
use page_layout::{Meta, Spelled, Super};
use ports::{Page, PageFault, blank_page};
use redo_journal::settling_laws;

/// The page of the superblock.
const SUPER_PAGE: u64 = 1;

/// The page of the meta page.
const META_PAGE: u64 = 2;

impl SettledPages {
    ghost use Rattle.settled_pages.specs.Shown.{Finds, IsOf, pages_shown};

    // The bytes of a page, or None exactly where it is past the end.
    fn bytes<D: Disk>(&self, disk: &mut D, page: u64) -> Result<Option<Page>, Failed>
        requires { IsTrue (D.tells disk.old) → Finds self.now (D.image disk.old) }
        ensures some { IfOk result (λ found. IfSome found (λ bytes. IsTrue (D.tells disk.old)
            → bytes ≡ page_at (pages_shown (D.image disk.old) self.now) page)) }
        ensures none { IfOk result (λ found. IfNone found (IsTrue (D.tells disk.old)
            → length (pages_shown (D.image disk.old) self.now) ≤ page)) }
        ensures reads { OnlyReads D.Disk any_error 1 disk.old disk.new result }
    {
        let mut bytes = blank_page();
        match self.get(disk, page, &mut bytes) {
            Ok(()) => Ok(Some(bytes)),
            Err(PageFault::Damaged(_)) => Ok(None),
            Err(PageFault::Disk) => Err(Failed),
        }
    }

    // The params in the superblock, if page 1 is one.
    fn params<D: Disk>(&self, disk: &mut D) -> Result<Option<Params>, Failed>
        requires { IsTrue (D.tells disk.old) → Finds self.now (D.image disk.old) }
        ensures in_range { IfOk result (λ found. IfSome found (λ params. IsInRange params)) }
        ensures some { IfOk result (λ found. IfSome found (λ params. IsTrue (D.tells disk.old)
            → SpellsParams (page_at (pages_shown (D.image disk.old) self.now) 1) params)) }
        ensures none { IfOk result (λ found. IfNone found (IsTrue (D.tells disk.old)
            → 3 ≤ length (pages_shown (D.image disk.old) self.now) → HasNoParams (pages_shown (D.image disk.old) self.now))) }
        ensures reads { OnlyReads D.Disk any_error 1 disk.old disk.new result }
    {
        let Some(page) = self.bytes(disk, SUPER_PAGE)? else {
            return Ok(None);
        };
        match Super::read(&page) {
            Some(found) => Ok(Some(found.params)),
            None => Ok(None),
        }
    }

    // The meta page, if page 2 is one by which no more pages are given out than there are and than the
    // limit allows.
    fn meta<D: Disk>(&self, disk: &mut D, limit: u64) -> Result<Option<Meta>, Failed>
        requires { IsTrue (D.tells disk.old) → Finds self.now (D.image disk.old) }
        ensures rules { IfOk result (λ found. IfSome found (λ meta. IsMeta meta × IsTyped meta × (meta.allotted ≤ limit))) }
        ensures some { IfOk result (λ found. IfSome found (λ meta. IsTrue (D.tells disk.old)
            → SpellsMeta (page_at (pages_shown (D.image disk.old) self.now) 2) meta)) }
        ensures there { IfOk result (λ found. IfSome found (λ meta. IsTrue (D.tells disk.old)
            → meta.allotted ≤ length (pages_shown (D.image disk.old) self.now))) }
        ensures none { IfOk result (λ found. IfNone found (IsTrue (D.tells disk.old)
            → HasNoMeta (pages_shown (D.image disk.old) self.now) limit)) }
        ensures reads { OnlyReads D.Disk any_error 1 disk.old disk.new result }
    {
        let Some(page) = self.bytes(disk, META_PAGE)? else {
            return Ok(None);
        };
        let Some(meta) = Meta::read(&page) else {
            return Ok(None);
        };
        if meta.allotted > limit || !self.reaches(meta.allotted - 1) {
            return Ok(None);
        }
        Ok(Some(meta))
    }

    /// What the space was made for and its meta page, where the pages are a space: page 1 is a superblock,
    /// and page 2 a meta page by which no more pages are given out than there are and than the superblock
    /// allows. Whether its free pages are in order is not looked at. At most two reads.
    pub fn roots<D: Disk>(&self, disk: &mut D) -> Result<Option<(Params, Meta)>, Failed>
        requires { IsTrue (D.tells disk.old) → IsOf (D.image disk.old) self.now }
        ensures roots { IfOk result (λ found. IfSome found (λ roots. AreRoots roots.0 roots.1)) }
        ensures some { IfOk result (λ found. IfSome found (λ roots. IsTrue (D.tells disk.old)
            → HoldsSpace (D.image disk.old) roots.0 roots.1
            (pages_in_use (page_at (pages_shown (D.image disk.old) self.now)) roots.1.allotted) ⊥)) }
        // Its free pages are in order where they are so among the pages found.
        ensures ordered { IfOk result (λ found. IfSome found (λ roots. IsTrue (D.tells disk.old)
            → HoldsSpace (D.image disk.old) roots.0 roots.1
            (pages_in_use (page_at (pages_shown (D.image disk.old) self.now)) roots.1.allotted)
            (FreeInOrder (page_at (pages_shown (D.image disk.old) self.now)) roots.1.allotted roots.1.free))) }
        ensures there { IfOk result (λ found. IfSome found (λ roots. IsTrue (D.tells disk.old)
            → roots.1.allotted ≤ length (pages_shown (D.image disk.old) self.now))) }
        ensures none { IfOk result (λ found. IfNone found (IsTrue (D.tells disk.old) → (params : Params) (meta : Meta) (map : PageMap)
            → HoldsSpace (D.image disk.old) params meta map ⊥ → ⊥)) }
        ensures reads { OnlyReads D.Disk any_error 2 disk.old disk.new result }
    {
        // A disk stands for one list of pages, and a page spells one superblock.
        settling_laws();
        Super::one_spelling();
        match self.params(disk)? {
            Some(params) => match self.meta(disk, params.pages)? {
                Some(meta) => Ok(Some((params, meta))),
                None => Ok(None),
            },
            None => Ok(None),
        }
    }
}
