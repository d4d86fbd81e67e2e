//! The making of spans on an empty disk.
ghost use Rattle.std.specs.Prelude.{◌≡◌, ◌⊎◌, ◌≤◌, true, false, IsTrue};
ghost use Rattle.bw_types.specs.Fits.{IsInRange};
ghost use Rattle.ports.specs.Count.{Rose};
ghost use Rattle.page_disk.specs.Since.{LeavesNow, LeavesOnly};
ghost use Rattle.page_warehouse.specs.Created.{IfFailed, IfMade, IfThere, created_disk};
ghost use Rattle.redo_journal.specs.Gates.{is_empty};
ghost use Rattle.span_planes.specs.Made.{IsNew, NewSpansHoldNothing, NoVersionHoldsNothing, new_meta};

use crate::opening::root_count;
use arrayvec::ArrayVec;
use bw_types::{Params, Tree};
use dom_index::DomIndex;
use page_disk::Disk;
use page_layout::{Meta, Spelled, Super};
use page_space::created_holds;
use page_warehouse::Created;
use ports::blank_page;
use redo_journal::{Gate, ready};

// The meta page of spans without versions.
pub(crate) fn first_meta(params: &Params) -> Meta
    requires { IsInRange params.now }
    ensures { result ≡ new_meta params.now }
{
    let mut roots = ArrayVec::new();
    for _ in 0..root_count(params.dims) {
        roots.push(Tree::default());
    }
    Meta {
        lives: 1,
        version: 0,
        events: 0,
        rows: 0,
        allotted: 3,
        free: 0,
        mass: 0,
        table: Tree::default(),
        roots,
    }
}

/// Makes spans without versions, of a warehouse with these params, on a disk that is empty. It takes no memory.
///
/// A crash at any moment leaves the disk as it was before, or empty, or with the new spans.
pub(crate) fn create<E: Disk>(disk: E, params: &Params) -> Created<E>
    requires { IsInRange params.now }
    ensures made { IfMade result (IsTrue (E.tells disk) → (is_empty (E.image disk) ≡ true) × IsNew params.now (E.image (created_disk result))) }
    ensures settled { IfMade result (LeavesNow (E.moments (created_disk result)) (E.image (created_disk result))) }
    ensures there { IfThere result (IsTrue (E.tells disk) → is_empty (E.image disk) ≡ false) }
    ensures any_moment { IsTrue (E.tells disk) → is_empty (E.image disk) ≡ true
        → LeavesOnly (λ x. (is_empty x ≡ true) ⊎ IsNew params.now x) (E.moments disk) (E.moments (created_disk result)) }
    ensures disk { IfFailed result (Rose (E.faults disk) (E.faults (created_disk result))) }
    ensures faults { E.faults disk ≤ E.faults (created_disk result) }
    ensures tells { E.tells (created_disk result) ≡ E.tells disk }
{
    let mut disk = disk;
    match ready(&mut disk) {
        Err(_) => return Created::Disk(disk),
        Ok(Gate::Blank) => {}
        Ok(_) => return Created::AlreadyThere(disk),
    }
    let without = Params {
        dims: params.dims,
        degree: None,
        events: params.events,
        pages: params.pages,
        origin: params.origin,
    };
    let mut superblock = blank_page();
    Super { params: without }.write(&mut superblock);
    let mut meta = blank_page();
    first_meta(params).write(&mut meta);
    match redo_journal::create(&mut disk, &superblock, &meta) {
        Ok(()) => Created::Done(disk),
        Err(_) => Created::Disk(disk),
    }
}

/// New spans hold those of the empty history; it does nothing when it runs.
pub fn new_spans_hold<X: DomIndex>()
    ensures { NewSpansHoldNothing X.DomIndex }
{
    X::index_laws();
    created_holds();
}

/// A disk holds spans of no version exactly where it holds those of the empty history; it does nothing when it runs.
pub fn no_version_holds_nothing<X: DomIndex>()
    ensures { NoVersionHoldsNothing X.DomIndex }
{
    X::index_laws();
}
