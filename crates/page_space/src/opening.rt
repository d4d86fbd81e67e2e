//! The opening of a space on a disk.
ghost use Rattle.std.specs.Prelude.{◌≡◌, ◌+◌, ◌≤◌, ◌<◌, length, Ok, Err, IsTrue, IfOk, IfErr};
ghost use Rattle.bw_types.specs.Fits.{IsInRange};
ghost use Rattle.page_disk.specs.Calls.{OnlyReads, WritesAsTold};
ghost use Rattle.page_disk.specs.Image.{PageList, page_at};
ghost use Rattle.page_disk.specs.Since.{LeavesNow, LeavesOnly};
ghost use Rattle.redo_journal.specs.Gates.{gate_of};
ghost use Rattle.redo_journal.specs.Settled.{SettlesTo};
ghost use Rattle.redo_journal.specs.declared.gate.Gate.TheVariants.{Idle};
ghost use Rattle.page_layout.specs.Meta.{IsMeta, IsTyped, meta_page};
ghost use Rattle.page_space.specs.Opened.{IsRefusedAsSpace, IsSpaceOf, StaysAsRead};
ghost use Rattle.page_space.specs.Opening.{HasNoMeta, HasNoParams, IsDamagedAt, IsSomeSpace};
ghost use Rattle.page_space.specs.Faults.{AtBadJournal, AtDamaged, AtEmpty, AtNoMemory, is_disk};
ghost use Rattle.page_space.specs.Refused.{opened_disk};
ghost use Rattle.page_space.specs.Settling.{HasNoReplay, replay_reads};
ghost use Rattle.page_space.specs.Space.{params_page};

use crate::settling::settle;
use crate::{OpenFault, OpenRefused, Space};
use bw_types::Params;
use page_cache::Cache;
use page_disk::{Area, Disk};
use page_layout::{Meta, Spelled, Super};
use ports::{Page, blank_page};
use redo_journal::settling_laws;
use std::alloc::Global;

/// How many pages a space keeps in memory.
const CACHE_PAGES: usize = 8192;

/// The page of the superblock.
const SUPER_PAGE: u64 = 1;

/// The page of the meta page.
pub(crate) const META_PAGE: u64 = 2;

// Reads a page of the Pages area, which past the end is all zeros. One read.
fn read_page<D: Disk>(disk: &mut D, page: u64) -> Result<Page, OpenFault>
    ensures ok { IfOk result (λ bytes. IsTrue (D.tells disk.old) → page < length (D.image disk.old).pages
        → bytes ≡ page_at (D.image disk.old).pages page) }
    ensures only { IfErr result (λ fault. fault ≡ OpenFault.Disk) }
    ensures reads { OnlyReads D.Disk is_disk 1 disk.old disk.new result }
{
    let mut bytes = blank_page();
    match disk.read(Area::Pages, page, &mut bytes) {
        Ok(_) => Ok(bytes),
        Err(_) => Err(OpenFault::Disk),
    }
}

// The params in the superblock. Damaged carries 1, and comes exactly where that is no superblock.
fn read_params<D: Disk>(disk: &mut D) -> Result<Params, OpenFault>
    requires { IsTrue (D.tells disk.old) → 3 ≤ length (D.image disk.old).pages }
    ensures rules { IfOk result (λ params. IsInRange params) }
    ensures ok { IfOk result (λ params. IsTrue (D.tells disk.old) → page_at (D.image disk.old).pages 1 ≡ params_page params) }
    ensures damaged { IfErr result (λ fault. AtDamaged fault (λ page. (page ≡ 1) × (IsTrue (D.tells disk.old) → HasNoParams (D.image disk.old).pages))) }
    ensures only { IfErr result (λ fault. AtEmpty fault ⊥ × AtBadJournal fault (λ _. ⊥) × AtNoMemory fault ⊥) }
    ensures reads { OnlyReads D.Disk is_disk 1 disk.old disk.new result }
{
    let page = read_page(disk, SUPER_PAGE)?;
    match Super::read(&page) {
        Some(found) => Ok(found.params),
        None => Err(OpenFault::Damaged(SUPER_PAGE)),
    }
}

// The meta page. Damaged carries 2, and comes exactly where that is no meta page or one by which more
// pages are given out than the area has or the limit allows.
fn read_meta<D: Disk>(disk: &mut D, limit: u64) -> Result<Meta, OpenFault>
    requires { IsTrue (D.tells disk.old) → 3 ≤ length (D.image disk.old).pages }
    ensures rules { IfOk result (λ meta. IsMeta meta) }
    ensures typed { IfOk result (λ meta. IsTyped meta) }
    ensures few { IfOk result (λ meta. meta.allotted ≤ limit) }
    ensures ok { IfOk result (λ meta. IsTrue (D.tells disk.old) → (page_at (D.image disk.old).pages 2 ≡ meta_page meta)
        × (meta.allotted ≤ length (D.image disk.old).pages)) }
    ensures damaged { IfErr result (λ fault. AtDamaged fault (λ page. (page ≡ 2) × (IsTrue (D.tells disk.old) → HasNoMeta (D.image disk.old).pages limit))) }
    ensures only { IfErr result (λ fault. AtEmpty fault ⊥ × AtBadJournal fault (λ _. ⊥) × AtNoMemory fault ⊥) }
    ensures reads { OnlyReads D.Disk is_disk 1 disk.old disk.new result }
{
    let Ok(pages) = disk.len(Area::Pages) else {
        return Err(OpenFault::Disk);
    };
    let page = read_page(disk, META_PAGE)?;
    let Some(meta) = Meta::read(&page) else {
        return Err(OpenFault::Damaged(META_PAGE));
    };
    if meta.allotted > pages || meta.allotted > limit {
        return Err(OpenFault::Damaged(META_PAGE));
    }
    Ok(meta)
}

// The params and the meta page. Damaged carries the first of the two pages that is none.
fn read_roots<D: Disk>(disk: &mut D) -> Result<(Params, Meta), OpenFault>
    requires { IsTrue (D.tells disk.old) → 3 ≤ length (D.image disk.old).pages }
    ensures in_range { IfOk result (λ found. IsInRange found.0) }
    ensures rules { IfOk result (λ found. IsMeta found.1) }
    ensures typed { IfOk result (λ found. IsTyped found.1) }
    ensures few { IfOk result (λ found. found.1.allotted ≤ found.0.pages) }
    ensures superblock { IfOk result (λ found. IsTrue (D.tells disk.old) → page_at (D.image disk.old).pages 1 ≡ params_page found.0) }
    ensures roots { IfOk result (λ found. IsTrue (D.tells disk.old) → page_at (D.image disk.old).pages 2 ≡ meta_page found.1) }
    ensures there { IfOk result (λ found. IsTrue (D.tells disk.old) → found.1.allotted ≤ length (D.image disk.old).pages) }
    ensures damaged { IfErr result (λ fault. AtDamaged fault (λ page. IsTrue (D.tells disk.old) → IsDamagedAt (D.image disk.old).pages page)) }
    ensures only { IfErr result (λ fault. AtEmpty fault ⊥ × AtBadJournal fault (λ _. ⊥) × AtNoMemory fault ⊥) }
    ensures reads { OnlyReads D.Disk is_disk 2 disk.old disk.new result }
{
    let params = read_params(disk)?;
    let meta = read_meta(disk, params.pages)?;
    Ok((params, meta))
}

// Opens a disk with nothing pending and nothing to replay.
fn open_settled<D: Disk>(alloc: Global, mut disk: D) -> Result<Space<D>, OpenRefused<D>>
    requires idle { IsTrue (D.tells disk) → gate_of (D.image disk) ≡ Idle }
    requires settled { LeavesNow (D.moments disk) (D.image disk) }
    ensures damaged { IfErr result (λ refused. AtDamaged refused.fault (λ page. IsTrue (D.tells disk) → IsDamagedAt (D.image disk).pages page)) }
    ensures no_memory { IfErr result (λ refused. AtNoMemory refused.fault (IsTrue (D.tells disk) → IsSomeSpace (D.image disk).pages)) }
    ensures not_empty { IfErr result (λ refused. AtEmpty refused.fault ⊥) }
    ensures not_bad { IfErr result (λ refused. AtBadJournal refused.fault (λ _. ⊥)) }
    ensures reads { OnlyReads D.Disk (λ refused. is_disk refused.fault) 2 disk (opened_disk result) result }
{
    let fault = match read_roots(&mut disk) {
        Ok((params, meta)) => match Cache::new(alloc, CACHE_PAGES) {
            Ok(cache) => {
                return Ok(Space {
                    disk,
                    cache,
                    params,
                    meta,
                    alloc,
                });
            }
            Err(_) => OpenFault::NoMemory,
        },
        Err(fault) => fault,
    };
    Err(OpenRefused { fault, disk })
}

impl<D: Disk> Space<D> {
    /// Opens the space on a disk: syncs it, replays its journal where that is open, and reads the
    /// superblock and the meta page. A refusal hands the disk back.
    ///
    /// The faults are tried in this order. `Disk` comes only where the count of faults rose. `Empty`
    /// comes exactly where there is no warehouse. `BadJournal` comes exactly where the journal has no
    /// page, and then carries 0, or where it is open and breaks its rules, and carries the first page
    /// that does. `Damaged` carries 1 where page 1 is no superblock, and else 2 where page 2 is no meta
    /// page, or one by which more pages are given out than there are or than the limit allows.
    /// `NoMemory` comes only where none of these is so.
    ///
    /// A crash at any moment leaves a disk that stands for the same pages, and so does the disk that a
    /// refusal hands back, with nothing pending, unless the device failed. Four reads at most, and as
    /// many more for a replay as twice the journal has pages.
    pub fn open_on(alloc: Global, mut disk: D) -> Result<Space<D>, OpenRefused<D>>
        ensures opened { IfOk result (λ space. IsSpaceOf D.Disk disk space) }
        ensures refused { IfErr result (λ refused. IsRefusedAsSpace D.Disk disk refused.fault refused.disk) }
        // A crash at any moment leaves the same pages.
        ensures any_moment { IsTrue (D.tells disk) → (pages : PageList) → SettlesTo (D.image disk) pages
            → LeavesOnly (λ x. SettlesTo x pages) (D.moments disk) (D.moments (opened_disk result)) }
        // Where nothing is replayed, the disk is as it was.
        ensures untouched { IsTrue (D.tells disk) → HasNoReplay (D.image disk) → StaysAsRead D.Disk disk (opened_disk result) }
        ensures writes { WritesAsTold D.Disk (λ refused. is_disk refused.fault) (4 + replay_reads (D.image disk)) disk (opened_disk result) result }
    {
        // A disk stands for one list of pages.
        settling_laws();
        match settle(&mut disk) {
            Ok(()) => open_settled(alloc, disk),
            Err(fault) => Err(OpenRefused { fault, disk }),
        }
    }
}
