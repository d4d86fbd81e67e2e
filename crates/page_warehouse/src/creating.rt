//! The making of a warehouse on an empty disk.
ghost use Rattle.std.specs.Prelude.{◌≡◌, ◌+◌, ◌≤◌, true, false, IsTrue};
ghost use Rattle.bw_types.specs.Fits.{IsInRange};
ghost use Rattle.ports.specs.Count.{Rose};
ghost use Rattle.page_disk.specs.Since.{LeavesNow, LeavesOnly};
ghost use Rattle.redo_journal.specs.Gates.{is_empty};
ghost use Rattle.page_warehouse.specs.Created.{IfFailed, IfMade, IfThere, IsEmptyOrNew, IsNew, created_disk, new_meta};

use bw_types::{Params, Tree};
use corner_forest::Forest;
use page_disk::Disk;
use page_layout::{Meta, Spelled, Super};
use ports::blank_page;
use redo_journal::{Gate, ready};

/// What became of a disk on which a warehouse was to be made.
#[derive(Drop)]
pub enum Created<D> {
    /// The disk has a new warehouse.
    Done(D),
    /// There is a warehouse already; the disk is as before.
    AlreadyThere(D),
    /// The device failed. Comes only where its count of faults rose.
    Disk(D),
}

// The meta page of a warehouse without versions.
fn first_meta(params: &Params) -> Meta
    requires { IsInRange params.now }
    ensures { result ≡ new_meta params.now }
{
    Meta {
        lives: 1,
        version: 0,
        events: 0,
        rows: 0,
        allotted: 3,
        free: 0,
        mass: 0,
        table: Tree::default(),
        roots: Forest::new(params).roots,
    }
}

/// Makes a warehouse on a disk that has none. It takes no memory.
///
/// A crash at any moment leaves the disk as it was before, or empty, or with the new warehouse. At most two reads.
pub fn create<D: Disk>(disk: D, params: &Params) -> Created<D>
    requires { IsInRange params.now }
    ensures made { IfMade result (IsTrue (D.tells disk) → (is_empty (D.image disk) ≡ true) × IsNew params.now (D.image (created_disk result))) }
    ensures settled { IfMade result (LeavesNow (D.moments (created_disk result)) (D.image (created_disk result))) }
    ensures there { IfThere result (IsTrue (D.tells disk) → is_empty (D.image disk) ≡ false) }
    ensures untouched { IfThere result (D.image (created_disk result) ≡ D.image disk) }
    ensures untouched_moments { IfThere result (LeavesOnly (λ x. x ≡ D.image disk) (D.moments disk) (D.moments (created_disk result))) }
    ensures any_moment { IsTrue (D.tells disk) → is_empty (D.image disk) ≡ true
        → LeavesOnly (IsEmptyOrNew params.now) (D.moments disk) (D.moments (created_disk result)) }
    // A warehouse that is there is left as it is, whatever the answer.
    ensures kept { IsTrue (D.tells disk) → is_empty (D.image disk) ≡ false → (D.image (created_disk result) ≡ D.image disk)
        × LeavesOnly (λ x. x ≡ D.image disk) (D.moments disk) (D.moments (created_disk result)) }
    ensures disk { IfFailed result (Rose (D.faults disk) (D.faults (created_disk result))) }
    ensures faults { D.faults disk ≤ D.faults (created_disk result) }
    ensures reads { D.reads (created_disk result) ≤ D.reads disk + 2 }
    ensures tells { D.tells (created_disk result) ≡ D.tells disk }
{
    let mut disk = disk;
    match ready(&mut disk) {
        Err(_) => return Created::Disk(disk),
        Ok(Gate::Blank) => {}
        Ok(_) => return Created::AlreadyThere(disk),
    }
    let mut superblock = blank_page();
    Super { params: *params }.write(&mut superblock);
    let mut meta = blank_page();
    first_meta(params).write(&mut meta);
    match redo_journal::create(&mut disk, &superblock, &meta) {
        Ok(()) => Created::Done(disk),
        Err(_) => Created::Disk(disk),
    }
}
