//! A look at a second disk, before anything is written to it.
ghost use Rattle.std.specs.Prelude.{◌≡◌, ◌≤◌, ◌+◌, ◌↔◌, true, false, IsTrue, IfOk, length};
ghost use Rattle.bw_types.specs.Fits.{IsInRange};
ghost use Rattle.page_disk.specs.Calls.{OnlyReads};
ghost use Rattle.page_disk.specs.Image.{page_at};
ghost use Rattle.page_space.specs.Chain.{FreeInOrder};
ghost use Rattle.settled_pages.specs.Calls.{OnlyReadsAsTold};
ghost use Rattle.settled_pages.specs.Faults.{is_disk_at_look};
ghost use Rattle.settled_pages.specs.Shown.{Finds, IsOf, pages_shown};
ghost use Rattle.span_planes.specs.Readied.{IsGround, TellNoVersion};
ghost use Rattle.span_planes.specs.SpanHolds.{without_degree};

use crate::creating::first_meta;
use bw_types::Params;
use page_disk::Disk;
use page_layout::Meta;
use page_space::{held_opens, holds_one};
use settled_pages::{LookFault, SettleFault, SettledPages, SettledSpace};
use std::alloc::Global;

/// What a second disk is to spans.
#[derive(Clone, Copy, Debug, PartialEq, Eq)]
pub(crate) enum Ground {
    /// It is empty.
    Empty,
    /// It holds spans of no version.
    NoVersion,
    /// Something else is on it.
    Other,
}

/// Finds out what a second disk is to spans of a warehouse with these params. It is read through its journal: nothing is written.
pub(crate) fn look<E: Disk>(
    alloc: Global,
    second: &mut E,
    params: &Params,
) -> Result<Ground, LookFault>
    requires { IsInRange params.now }
    ensures seen { IfOk result (λ seen. IsTrue (E.tells second.old) → IsGround params.now (E.image second.old) seen) }
    ensures reads { OnlyReadsAsTold E.Disk is_disk_at_look (4 + length (E.image second.old).journal + params.now.pages) second.old second.new result }
{
    held_opens();
    match SettledPages::find(alloc, second) {
        Ok(settled) => Ok(ground_of(alloc, &settled, second, params)?),
        Err(SettleFault::Empty) => Ok(Ground::Empty),
        Err(SettleFault::BadJournal(_)) => Ok(Ground::Other),
        Err(SettleFault::Disk) => Err(LookFault::Disk),
        Err(SettleFault::NoMemory) => Err(LookFault::NoMemory),
    }
}

// What the pages that were found are to spans.
fn ground_of<E: Disk>(
    alloc: Global,
    settled: &SettledPages,
    second: &mut E,
    params: &Params,
) -> Result<Ground, LookFault>
    requires range { IsInRange params.now }
    requires found { IsTrue (E.tells second.old) → IsOf (E.image second.old) settled.now }
    ensures seen { IfOk result (λ seen. IsTrue (E.tells second.old) → IsGround params.now (E.image second.old) seen) }
    ensures reads { OnlyReads E.Disk is_disk_at_look (2 + params.now.pages) second.old second.new result }
{
    holds_one();
    match settled.roots(second) {
        Ok(Some((read, meta))) => {
            if !tells_no_version(&read, &meta, params) {
                return Ok(Ground::Other);
            }
            match is_in_order(alloc, settled, second, read, &meta) {
                Ok(true) => Ok(Ground::NoVersion),
                Ok(false) => Ok(Ground::Other),
                Err(fault) => Err(fault),
            }
        }
        Ok(None) => Ok(Ground::Other),
        Err(_) => Err(LookFault::Disk),
    }
}

// Whether the free pages are in order, of the space that was found with these params and this meta page.
fn is_in_order<E: Disk>(
    alloc: Global,
    settled: &SettledPages,
    second: &mut E,
    read: Params,
    meta: &Meta,
) -> Result<bool, LookFault>
    requires finds { IsTrue (E.tells second.old) → Finds settled.now (E.image second.old) }
    requires there { IsTrue (E.tells second.old) → meta.now.allotted ≤ length (pages_shown (E.image second.old) settled.now) }
    ensures ordered { IfOk result (λ ordered. IsTrue (E.tells second.old)
        → IsTrue ordered ↔ FreeInOrder (page_at (pages_shown (E.image second.old) settled.now)) meta.now.allotted meta.now.free) }
    ensures reads { OnlyReads E.Disk is_disk_at_look meta.now.allotted second.old second.new result }
{
    let mut space = SettledSpace::new(second, settled, read, meta);
    match space.free_pages(alloc) {
        Ok(Some(_)) => Ok(true),
        Ok(None) => Ok(false),
        Err(fault) => Err(fault),
    }
}

/// Whether the params that were read and the meta page tell of spans of no version, of a warehouse with these params, whose trees are all
/// empty.
pub(crate) fn tells_no_version(read: &Params, meta: &Meta, params: &Params) -> bool
    requires { IsInRange params.now }
    ensures yes { result ≡ true → TellNoVersion params.now read.now meta.now }
    ensures no { result ≡ false → TellNoVersion params.now read.now meta.now → ⊥ }
{
    let wanted = Meta {
        lives: meta.lives,
        allotted: meta.allotted,
        free: meta.free,
        mass: meta.mass,
        ..first_meta(params)
    };
    *read == plain(params) && *meta == wanted
}

// The params without the degree.
fn plain(params: &Params) -> Params
    ensures { result ≡ without_degree params.now }
{
    Params {
        dims: params.dims,
        degree: None,
        events: params.events,
        pages: params.pages,
        origin: params.origin,
    }
}
