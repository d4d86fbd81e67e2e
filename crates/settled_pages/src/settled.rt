//! The pages that a disk stands for.
ghost use Rattle.std.specs.Prelude.{◌≡◌, ◌⊎◌, ◌+◌, ℕ, true, Err, IsTrue, IfOk, IfErr, OnOk, length};
ghost use Rattle.page_disk.specs.Calls.{OnlyReads};
ghost use Rattle.page_disk.specs.Image.{PageList};
ghost use Rattle.redo_journal.specs.Gates.{gate_of, is_empty};
ghost use Rattle.redo_journal.specs.declared.gate.Gate.TheVariants.{Armed, Idle};
ghost use Rattle.redo_journal.specs.Placing.{Ascend};
ghost use Rattle.redo_journal.specs.Settled.{SettlesTo};
ghost use Rattle.page_space.specs.Settling.{IsBadAt};
ghost use Rattle.settled_pages.specs.Calls.{OnlyReadsAsTold};
ghost use Rattle.settled_pages.specs.Faults.{AtBadJournal, AtEmpty, AtNoMemory, is_disk};
ghost use Rattle.settled_pages.specs.Places.{Ascend-prop, homes_in};

use crate::SettleFault;
use crate::gates::gate_on;
use crate::places::{ImagePlace, find_places};
use page_disk::{Area, Disk};
use redo_journal::{Gate, settling_laws};
use std::alloc::Global;

/// Where the pages stand that a disk stands for: for each image in an open journal its place, and for
/// no other page anything.
#[derive(Drop)]
pub struct SettledPages {
    // The length of the Pages area.
    pub(crate) area: u64,
    // The last page that has an image, or 0.
    pub(crate) last: u64,
    // In the order of their homes.
    pub(crate) places: Vec<ImagePlace>,
    ghost ascends: { Ascend 0 (homes_in places.items) } by { Ascend-prop 0 (homes_in places.items) },
}

impl SettledPages {
    ghost use Rattle.settled_pages.specs.Shown.{IsOf};

    // Of a disk with nothing to replay. No read.
    fn idle<D: Disk>(alloc: Global, disk: &mut D) -> Result<SettledPages, SettleFault>
        requires { IsTrue (D.tells disk.old) → gate_of (D.image disk.old) ≡ Idle }
        ensures ok { IfOk result (λ settled. IsTrue (D.tells disk.old) → IsOf (D.image disk.old) settled) }
        ensures only { IfErr result (λ fault. fault ≡ SettleFault.Disk) }
        ensures reads { OnlyReads D.Disk is_disk 0 disk.old disk.new result }
    {
        let area = disk.len(Area::Pages)?;
        Ok(SettledPages {
            area,
            last: 0,
            places: Vec::new(alloc),
        })
    }

    // Of a disk with an open journal. Reads its heads.
    fn armed<D: Disk>(alloc: Global, disk: &mut D) -> Result<SettledPages, SettleFault>
        requires { IsTrue (D.tells disk.old) → gate_of (D.image disk.old) ≡ Armed }
        ensures ok { IfOk result (λ settled. IsTrue (D.tells disk.old) → IsOf (D.image disk.old) settled) }
        ensures bad { IfErr result (λ fault. AtBadJournal fault (λ page. IsTrue (D.tells disk.old) → IsBadAt (D.image disk.old) page)) }
        ensures only { IfErr result (λ fault. AtEmpty fault ⊥) }
        ensures reads { OnlyReadsAsTold D.Disk is_disk (length (D.image disk.old).journal) disk.old disk.new result }
    {
        let area = disk.len(Area::Pages)?;
        let end = disk.len(Area::Journal)?;
        let found = find_places(alloc, disk, area, end)?;
        Ok(SettledPages {
            area,
            last: found.last,
            places: found.places,
        })
    }

    /// Finds the pages that the disk stands for. Writes nothing and makes no sync, and takes 16 bytes of
    /// memory, or up to twice that, for each image in an open journal.
    ///
    /// The faults are tried in this order. `Disk` comes only where the count of faults rose. `Empty`
    /// comes exactly where there is no warehouse. `BadJournal` comes exactly where the journal has no
    /// page, and then carries 0, or where it is open and breaks its rules, and carries the first page
    /// that does; where there is no memory for the images before that page `NoMemory` comes in its place.
    ///
    /// Two reads at most, and as many more as the journal has pages.
    pub fn find<D: Disk>(alloc: Global, disk: &mut D) -> Result<SettledPages, SettleFault>
        ensures ok { IfOk result (λ settled. IsTrue (D.tells disk.old) → IsOf (D.image disk.old) settled) }
        ensures empty { IfErr result (λ fault. AtEmpty fault (IsTrue (D.tells disk.old) → is_empty (D.image disk.old) ≡ true)) }
        ensures bad { IfErr result (λ fault. AtBadJournal fault (λ page. IsTrue (D.tells disk.old) → IsBadAt (D.image disk.old) page)) }
        ensures no_memory { IfErr result (λ fault. AtNoMemory fault (IsTrue (D.tells disk.old) → gate_of (D.image disk.old) ≡ Armed)) }
        // An empty disk is answered so, unless the device failed.
        ensures always_empty { IsTrue (D.tells disk.old) → is_empty (D.image disk.old) ≡ true
            → (result ≡ Err SettleFault.Empty) ⊎ (result ≡ Err SettleFault.Disk) }
        // The pages of a disk whose journal is bad are not found.
        ensures never_bad { OnOk result (IsTrue (D.tells disk.old) → (page : ℕ) → IsBadAt (D.image disk.old) page → ⊥) }
        // The pages of a disk that stands for some are found, unless the device failed or there was no memory.
        ensures found { IsTrue (D.tells disk.old) → (pages : PageList) → SettlesTo (D.image disk.old) pages
            → IfErr result (λ fault. (fault ≡ SettleFault.Disk) ⊎ (fault ≡ SettleFault.NoMemory)) }
        ensures reads { OnlyReadsAsTold D.Disk is_disk (2 + length (D.image disk.old).journal) disk.old disk.new result }
    {
        // No journal both holds images and breaks its rules.
        settling_laws();
        match gate_on(disk)? {
            Gate::Idle => SettledPages::idle(alloc, disk),
            Gate::Armed => SettledPages::armed(alloc, disk),
            Gate::NoJournal => Err(SettleFault::BadJournal(0)),
            Gate::Blank => Err(SettleFault::Empty),
        }
    }
}
