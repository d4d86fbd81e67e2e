//! The committed pages of a disk.
ghost use Rattle.std.specs.Prelude.{◌≡◌, ◌⊎◌, ◌+◌, ◌≤◌, ◌<◌, ℕ, List, length, Some, None, Ok, Err, IsTrue, OnOk};
ghost use Rattle.bw_types.specs.Fits.{IsInRange};
ghost use Rattle.ports.specs.Calls.{OnlyReads};
ghost use Rattle.page_disk.specs.Image.{Image, page_at};
ghost use Rattle.page_disk.specs.Since.{LeavesNow};
ghost use Rattle.page_cache.specs.Cache.{Agrees, KeepsAtMost, capacity, kept_pages};
ghost use Rattle.page_layout.specs.Meta.{IsMeta, IsTyped, meta_page};
ghost use Rattle.redo_journal.specs.Gates.{gate_of};
ghost use Rattle.redo_journal.specs.declared.gate.Gate.TheVariants.{Idle};
ghost use Rattle.std.proofs.Props.{props};
ghost use Rattle.page_space.specs.Ranges.{IsInRange-prop};
ghost use Rattle.page_space.specs.Space.{params_page};

use bw_types::Params;
use page_cache::Cache;
use page_disk::Disk;
use page_layout::Meta;
use ports::{FREE_PAGE, Page, PageFault, Pages};
use std::alloc::Global;

/// The committed pages of a disk, read through a cache of 8192 pages.
///
/// Its map has each page in use, as the bytes on the disk say it: from page 3 on, below the number of
/// pages that were given out, each page that does not begin as a free page.
#[derive(Drop)]
pub struct Space<D: Disk> {
    pub(crate) disk: D,
    pub(crate) cache: Cache,
    pub(crate) params: Params,
    pub(crate) meta: Meta,
    pub(crate) alloc: Global,
    ghost in_range: { IsInRange params } by { IsInRange-prop params },
    ghost most_pages: { params.pages ≤ 4294967295 },
    ghost rules: { IsMeta meta } by { Prim.hlevel props },
    ghost typed: { IsTyped meta } by { Prim.hlevel props },
    ghost least: { 3 ≤ meta.allotted },
    ghost few: { meta.allotted ≤ params.pages },
    // Where the disk tells its image, that is the space that is kept here.
    ghost superblock: { IsTrue (D.tells disk) → page_at (D.image disk).pages 1 ≡ params_page params },
    ghost roots: { IsTrue (D.tells disk) → page_at (D.image disk).pages 2 ≡ meta_page meta },
    ghost there: { IsTrue (D.tells disk) → meta.allotted ≤ length (D.image disk).pages },
    // Nothing is to be replayed and nothing pending, and the cache is as the disk.
    ghost idle: { IsTrue (D.tells disk) → gate_of (D.image disk) ≡ Idle },
    ghost settled: { LeavesNow (D.moments disk) (D.image disk) },
    ghost agrees: { IsTrue (D.tells disk) → Agrees (kept_pages cache) (D.image disk).pages },
    ghost cached: { capacity cache ≡ 8192 },
}

impl<D: Disk> Space<D> {
    ghost use Rattle.page_space.specs.Space.{AreRoots, HoldsSpace};
    ghost use Rattle.page_space.specs.Shown.{cached_pages, disk_of, params_of, meta_of, begun_of, map_of, IsInOrder};

    /// What the warehouse was made for.
    pub fn params(&self) -> Params
        ensures value { result ≡ params_of self.now }
        ensures in_range { IsInRange result }
    {
        self.params
    }

    /// The meta page.
    pub fn meta(&self) -> &Meta
        ensures value { result.now ≡ meta_of self.now }
        ensures roots { AreRoots (params_of self.now) result.now }
    {
        &self.meta
    }

    /// The disk as it stands, with nothing to replay and nothing pending.
    pub fn into_disk(self) -> D
        ensures disk { result ≡ disk_of self }
        ensures idle { IsTrue (D.tells result) → gate_of (D.image result) ≡ Idle }
        ensures settled { LeavesNow (D.moments result) (D.image result) }
    {
        let Space {
            disk,
            cache: _,
            params: _,
            meta: _,
            alloc: _,
        } = self;
        disk
    }

    /// Proves that the disk stands for the space, with nothing to replay and nothing pending, that the
    /// params and the meta page keep their rules, and that at most 8192 pages are kept in memory; it does
    /// nothing when it runs.
    pub fn is_held(&self)
        ensures held { IsTrue (D.tells (disk_of self.now)) → HoldsSpace (D.image (disk_of self.now)) (params_of self.now) (meta_of self.now)
            (map_of self.now) (IsInOrder self.now) }
        ensures idle { IsTrue (D.tells (disk_of self.now)) → gate_of (D.image (disk_of self.now)) ≡ Idle }
        ensures settled { LeavesNow (D.moments (disk_of self.now)) (D.image (disk_of self.now)) }
        ensures roots { AreRoots (params_of self.now) (meta_of self.now) }
        ensures cached { KeepsAtMost (cached_pages self.now) 8192 }
    {
        self.cache.few_law();
    }

    /// Reads a page as the disk has it, in use or not, at most once from the disk.
    pub(crate) fn read(&mut self, page: u64, buf: &mut Page) -> Result<(), PageFault>
        ensures ok { OnOk result (IsTrue (D.tells (disk_of self.old))
            → buf.new ≡ page_at (D.image (disk_of self.old)).pages page) }
        ensures damaged { (p : ℕ) → result ≡ Err (PageFault.Damaged p)
            → (p ≡ page) × (IsTrue (D.tells (disk_of self.old)) → length (D.image (disk_of self.old)).pages ≤ page) }
        ensures reads { OnlyReads ⟦<Space<D> as Pages>⟧ 1 self.old self.new result }
    {
        self.cache.get(&mut self.disk, page, buf)
    }
}

impl<D: Disk> Pages for Space<D> {
    ghost use Rattle.page_space.specs.Begun.{Begun};
    ghost use Rattle.page_space.specs.Shown.{disk_of, params_of, meta_of, begun_of, map_of, chain_of, IsInOrder};

    ghost tells = { λ space. D.tells (disk_of space) };

    ghost map = { λ space. map_of space };

    ghost gets = { λ space. D.reads (disk_of space) };

    ghost faults = { λ space. D.faults (disk_of space) };

    ghost allotted = { λ space. (meta_of space).allotted };

    ghost limit = { λ space. (params_of space).pages };

    ghost chain = { λ space. chain_of space };

    ghost free_in_order = { λ space. IsInOrder space };

    ghost Base = { Begun };

    ghost base = { λ space. begun_of space };

    fn get(&mut self, page: u64, buf: &mut Page) -> Result<(), PageFault> {
        if page < 3 || page >= self.meta.allotted {
            return Err(PageFault::Damaged(page));
        }
        self.read(page, buf)?;
        if buf[0] == FREE_PAGE {
            return Err(PageFault::Damaged(page));
        }
        Ok(())
    }
}
