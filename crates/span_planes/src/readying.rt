//! A second disk that is opened to take spans.
ghost use Rattle.std.specs.Prelude.{◌≡◌, ◌≤◌, true, false, IsTrue, IfOk, IfErr};
ghost use Rattle.bw_types.specs.Fits.{IsInRange};
ghost use Rattle.page_disk.specs.Since.{LeavesOnly};
ghost use Rattle.page_space.specs.Settling.{HasNoReplay};
ghost use Rattle.redo_journal.specs.Gates.{is_empty};
ghost use Rattle.span_planes.specs.Made.{HoldsNoVersion, MayTakeSpans};
ghost use Rattle.span_planes.specs.Readied.{IsNotOpened, IsReadied, IsRefused, IsSpaceOfNoVersion, readied_disk, refusal_of};

use crate::Derived;
use crate::creating::create;
use crate::looking::{Ground, look, tells_no_version};
use bw_types::Params;
use page_disk::Disk;
use page_space::{OpenFault, OpenRefused, Space, created_holds, held_opens, holds_one};
use page_warehouse::Created;
use redo_journal::settling_laws;
use settled_pages::LookFault;
use std::alloc::Global;

/// Opens the spans of no version of a warehouse with these params on a second disk, where new ones are made first if it is empty. It is looked
/// at first, and nothing is written to one with anything else on it.
pub(crate) fn ready_space<E: Disk>(
    alloc: Global,
    second: E,
    params: &Params,
) -> Result<Space<E>, Derived<E>>
    requires { IsInRange params.now }
    ensures readied { IfOk result (λ space. IsReadied E.Disk params.now second space) }
    ensures may { IfOk result (λ space. IsTrue (E.tells second) → MayTakeSpans params.now (E.image second)) }
    ensures refused { IfErr result (λ ended. IsRefused E.Disk params.now second ended) }
    ensures any_moment { IsTrue (E.tells second) → MayTakeSpans params.now (E.image second)
        → LeavesOnly (MayTakeSpans params.now) (E.moments second) (E.moments (readied_disk result)) }
    ensures faults { E.faults second ≤ E.faults (readied_disk result) }
    ensures tells { E.tells (readied_disk result) ≡ E.tells second }
{
    let mut second = second;
    match look(alloc, &mut second, params) {
        Ok(Ground::Empty) => make_new(alloc, second, params),
        Ok(Ground::NoVersion) => open_no_version(alloc, second, params),
        Ok(Ground::Other) => Err(Derived::AlreadyThere(second)),
        Err(LookFault::Disk) => Err(Derived::Disk(second)),
        Err(LookFault::NoMemory) => Err(Derived::NoMemory(second)),
    }
}

// Makes new spans on an empty disk, and opens them.
fn make_new<E: Disk>(alloc: Global, second: E, params: &Params) -> Result<Space<E>, Derived<E>>
    requires range { IsInRange params.now }
    requires empty { IsTrue (E.tells second) → is_empty (E.image second) ≡ true }
    ensures readied { IfOk result (λ space. IsReadied E.Disk params.now second space) }
    ensures refused { IfErr result (λ ended. IsNotOpened E.Disk params.now second ended) }
    ensures any_moment { IsTrue (E.tells second) → LeavesOnly (MayTakeSpans params.now) (E.moments second) (E.moments (readied_disk result)) }
    ensures faults { E.faults second ≤ E.faults (readied_disk result) }
    ensures tells { E.tells (readied_disk result) ≡ E.tells second }
{
    created_holds();
    match create(second, params) {
        Created::Done(second) => open_no_version(alloc, second, params),
        Created::AlreadyThere(second) => Err(Derived::AlreadyThere(second)),
        Created::Disk(second) => Err(Derived::Disk(second)),
    }
}

// Opens the spans of no version that a disk holds.
fn open_no_version<E: Disk>(
    alloc: Global,
    second: E,
    params: &Params,
) -> Result<Space<E>, Derived<E>>
    requires range { IsInRange params.now }
    requires holds { IsTrue (E.tells second) → HoldsNoVersion params.now (E.image second) }
    ensures readied { IfOk result (λ space. IsReadied E.Disk params.now second space) }
    ensures refused { IfErr result (λ ended. IsNotOpened E.Disk params.now second ended) }
    ensures any_moment { IsTrue (E.tells second) → LeavesOnly (MayTakeSpans params.now) (E.moments second) (E.moments (readied_disk result)) }
    // Where nothing is replayed, the disk reads as before.
    ensures image { IsTrue (E.tells second) → HasNoReplay (E.image second) → E.image (readied_disk result) ≡ E.image second }
    ensures faults { E.faults second ≤ E.faults (readied_disk result) }
    ensures tells { E.tells (readied_disk result) ≡ E.tells second }
{
    // A disk stands for one list of pages, and one space.
    settling_laws();
    holds_one();
    held_opens();
    match Space::open_on(alloc, second) {
        Ok(space) if is_of_no_version(&space, params) => Ok(space),
        Ok(space) => Err(Derived::Damaged {
            second: space.into_disk(),
            page: 2,
        }),
        Err(refused) => Err(refusal(refused)),
    }
}

// Whether the space is one of spans of no version, of a warehouse with these params.
fn is_of_no_version<E: Disk>(space: &Space<E>, params: &Params) -> bool
    requires { IsInRange params.now }
    ensures yes { result ≡ true → IsSpaceOfNoVersion params.now space.now }
    ensures no { result ≡ false → IsSpaceOfNoVersion params.now space.now → ⊥ }
{
    tells_no_version(&space.params(), space.meta(), params)
}

// What becomes of a disk on which no space was opened.
fn refusal<E: Disk>(refused: OpenRefused<E>) -> Derived<E>
    ensures { result ≡ refusal_of refused.fault refused.disk }
{
    let OpenRefused { fault, disk } = refused;
    match fault {
        OpenFault::Disk => Derived::Disk(disk),
        OpenFault::Empty => Derived::Damaged {
            second: disk,
            page: 0,
        },
        OpenFault::Damaged(page) | OpenFault::BadJournal(page) => Derived::Damaged {
            second: disk,
            page,
        },
        OpenFault::NoMemory => Derived::NoMemory(disk),
    }
}
