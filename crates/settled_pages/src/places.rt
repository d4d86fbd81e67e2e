//! The places of the journal's images.
ghost use Rattle.std.specs.Prelude.{◌≡◌, ◌+◌, ◌<◌, ◌^◌, ◌++◌, IsTrue, IfOk, IfErr, OnOk, length};
ghost use Rattle.redo_journal.specs.Groups.{BreaksAt, HoldsGroups, last_of};
ghost use Rattle.redo_journal.specs.Placing.{Ascend};
ghost use Rattle.page_disk.specs.Calls.{OnlyReads};
ghost use Rattle.settled_pages.specs.Faults.{AtBadJournal, AtEmpty, is_disk};
ghost use Rattle.settled_pages.specs.Places.{AreBefore, homes_in, images_in, places_from};

use crate::SettleFault;
use crate::heads::{head_at, last_home};
use page_disk::Disk;
use std::alloc::{AllocError, Global};

/// Where the image of a page stands in the journal.
#[derive(Clone, Copy, Debug, PartialEq, Eq)]
pub struct ImagePlace {
    pub(crate) home: u64,
    pub(crate) place: u64,
}

/// All places that were found.
#[derive(Drop)]
pub(crate) struct Found {
    pub(crate) places: Vec<ImagePlace>,
    /// The last page that has an image, or 0.
    pub(crate) last: u64,
}

// Notes the places of the images of these homes, which stand in a row from this page on.
fn note_group(places: &mut Vec<ImagePlace>, at: u64, homes: &[u64]) -> Result<(), AllocError>
    requires fits { at + length homes.now < 2 ^ 64 }
    ensures ok { OnOk result (places.new.items ≡ places.old.items ++ places_from at homes.now) }
{
    for (i, home) in homes.iter().enumerate() {
        places.push(ImagePlace {
            home: *home,
            place: at + i as u64,
        })?;
    }
    Ok(())
}

/// The place of each image of a journal that ends at `end`, over a Pages area of length `len`. Reads
/// each head.
pub(crate) fn find_places<D: Disk>(
    alloc: Global,
    disk: &mut D,
    len: u64,
    end: u64,
) -> Result<Found, SettleFault>
    requires { IsTrue (D.tells disk.old) → end ≡ length (D.image disk.old).journal }
    ensures held { IfOk result (λ found. IsTrue (D.tells disk.old)
        → HoldsGroups len (D.image disk.old).journal 1 0 (images_in (D.image disk.old).journal found.places.items)) }
    ensures before { IfOk result (λ found. AreBefore end found.places.items) }
    ensures ascends { IfOk result (λ found. Ascend 0 (homes_in found.places.items)) }
    ensures last { IfOk result (λ found. found.last ≡ last_of 0 (homes_in found.places.items)) }
    ensures bad { IfErr result (λ fault. AtBadJournal fault (λ page. IsTrue (D.tells disk.old)
        → BreaksAt len (D.image disk.old).journal 1 0 page)) }
    ensures only { IfErr result (λ fault. AtEmpty fault ⊥) }
    ensures reads { OnlyReads D.Disk is_disk end disk.old disk.new result }
{
    let mut places = Vec::new(alloc);
    let mut at = 1;
    let mut last = 0;
    'groups: loop {
        let head = head_at(disk, len, end, at, last)?;
        let homes = head.homes.as_slice();
        note_group(&mut places, at + 1, homes)?;
        last = last_home(last, homes);
        if !head.more {
            return Ok(Found { places, last });
        }
        at += 1 + homes.len() as u64;
    }
}
