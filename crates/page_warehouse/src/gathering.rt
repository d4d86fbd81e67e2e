//! All adds and withdrawals of a history, gathered from the object table.
ghost use Rattle.std.specs.Prelude.{◌≡◌, ◌≢◌, ◌≤◌, ◌↔◌, ◌++◌, ℕ, List, true, IsTrue, IfOk, OnOk, Err, IsPermutation, length};
ghost use Rattle.bw_types.specs.History.{History, changes, last_version};
ghost use Rattle.bw_types.specs.Lives.{lives};
ghost use Rattle.bw_types.specs.declared.dated.Dated.{Dated};
ghost use Rattle.ports.specs.Count.{Rose};
ghost use Rattle.warehouse.specs.Left.{IsAsBefore};
ghost use Rattle.page_warehouse.specs.Shown.{HasNewForm, HoldsHistory, disk_charge, disk_in, meta_in, params_in};
ghost use Rattle.page_warehouse.specs.Events.{AreEventsOf, events_of, events_of_lives};
ghost use Rattle.page_warehouse.specs.Faults.{read_fault};
ghost use Rattle.page_warehouse.specs.Told.{HasNumbersOf};
ghost use Rattle.page_warehouse.specs.declared.gathering.GatherFault.TheVariants.{NoMemory};

use crate::event::Event;
use crate::laws::tables_keep_lives;
use crate::numbering::make_history;
use crate::state::Warehouse;
use bw_types::Dated;
use dom_index::DomIndex;
use history_laws::lives_name_changes;
use page_disk::Disk;
use ports::PageFault;
use std::alloc::{AllocError, Global};
use thiserror::Error;

// The number of the meta page.
const META_PAGE: u64 = 2;

/// Why the events were not gathered.
#[derive(Clone, Copy, PartialEq, Eq, Debug, Error)]
pub enum GatherFault {
    /// The device failed.
    #[error("the disk failed")]
    Disk,
    /// The disk holds no history: this page, which was read on the way, is not as the program leaves it. It is that of the meta page where
    /// the adds and withdrawals of the table are not those of a history with its numbers.
    #[error("page {0} is damaged")]
    Damaged(u64),
    /// There was no memory.
    #[error("no memory")]
    NoMemory,
}

impl From<PageFault> for GatherFault {
    ghost from_gives = { λ read fault. fault ≡ read_fault read };

    fn from(read: PageFault) -> GatherFault {
        match read {
            PageFault::Disk => GatherFault::Disk,
            PageFault::Damaged(page) => GatherFault::Damaged(page),
        }
    }
}

impl From<AllocError> for GatherFault {
    ghost from_gives = { λ _ fault. fault ≡ NoMemory };

    fn from(_: AllocError) -> GatherFault {
        GatherFault::NoMemory
    }
}

/// All adds and withdrawals of the history of a warehouse, in order of event number. A withdrawal has the object that it ends.
///
/// Whatever the disk holds, they are those of a history that has the last version of the meta page and as many adds and withdrawals as
/// that page says.
///
/// The warehouse and its disk stay as they were. It takes memory for a list of the events.
///
/// `Disk` comes only where the count of faults rose, `Damaged` only where the disk holds no history.
pub fn gather<D: Disk, X: DomIndex>(
    alloc: Global,
    house: &mut Warehouse<D, X>,
) -> Result<Vec<Event>, GatherFault>
    ensures events { IfOk result (λ events. (h : History) → HoldsHistory D.Disk X.DomIndex true (disk_in house.old) (params_in house.old) h
        → AreEventsOf events.items h) }
    ensures lives { IfOk result (λ events. (h : History) → HoldsHistory D.Disk X.DomIndex true (disk_in house.old) (params_in house.old) h
        → IsPermutation (events_of_lives (lives h)) events.items) }
    ensures told { IfOk result (λ events. (h : History) × (AreEventsOf events.items h) × HasNumbersOf (meta_in house.old) h) }
    ensures kept { IsAsBefore params_in disk_in (HoldsHistory D.Disk X.DomIndex) (HasNewForm D.Disk) D.tells D.image D.moments (disk_charge D.Disk) house.old house.new }
    ensures meta { meta_in house.new ≡ meta_in house.old }
    ensures sound { (h : History) (page : ℕ) → HoldsHistory D.Disk X.DomIndex true (disk_in house.old) (params_in house.old) h
        → result ≢ Err (GatherFault.Damaged page) }
    ensures disk { result ≡ Err GatherFault.Disk → Rose (D.faults (disk_in house.old)) (D.faults (disk_in house.new)) }
    ensures faults { D.faults (disk_in house.old) ≤ D.faults (disk_in house.new) }
{
    lives_name_changes();
    let mut events = match gather_by_id(alloc, house) {
        Ok(events) => events,
        Err(fault) => return Err(fault),
    };
    events.sort_unstable_by_key(|event| event.event);
    if are_as_told(&events, house.last(), house.rows()) {
        Ok(events)
    } else {
        Err(GatherFault::Damaged(META_PAGE))
    }
}

// All adds and withdrawals that the object table tells, life by life, in the order of the table.
fn gather_by_id<D: Disk, X: DomIndex>(
    alloc: Global,
    house: &mut Warehouse<D, X>,
) -> Result<Vec<Event>, GatherFault>
    ensures passed { IfOk result (λ events. (h : History) → HoldsHistory D.Disk X.DomIndex true (disk_in house.old) (params_in house.old) h
        → (kept : List Dated) × (IsPermutation kept (lives h)) × (events.items ≡ events_of_lives kept)) }
    ensures kept { IsAsBefore params_in disk_in (HoldsHistory D.Disk X.DomIndex) (HasNewForm D.Disk) D.tells D.image D.moments (disk_charge D.Disk) house.old house.new }
    ensures meta { meta_in house.new ≡ meta_in house.old }
    ensures sound { (h : History) (page : ℕ) → HoldsHistory D.Disk X.DomIndex true (disk_in house.old) (params_in house.old) h
        → result ≢ Err (GatherFault.Damaged page) }
    ensures disk { result ≡ Err GatherFault.Disk → Rose (D.faults (disk_in house.old)) (D.faults (disk_in house.new)) }
    ensures faults { D.faults (disk_in house.old) ≤ D.faults (disk_in house.new) }
{
    tables_keep_lives::<X>();
    let mut events = Vec::new(alloc);
    let mut after = None;
    loop {
        let leaf = house.walk_leaf(after)?;
        let Some(last) = leaf.as_slice().last().copied() else {
            break;
        };
        after = Some((last.object.id, last.life));
        push_all(&mut events, leaf.as_slice())?;
    }
    Ok(events)
}

// Whether the events are those of a history with this last version and so many adds and withdrawals.
fn are_as_told(events: &[Event], last: u32, rows: u32) -> bool
    ensures { IsTrue result ↔ ((h : History) × (AreEventsOf events.now h) × (last_version h ≡ last) × (length (changes h) ≡ rows)) }
{
    events.len() == rows as usize && make_history(events, last)
}

// Puts the events of these lives behind the events, one life after the other.
fn push_all(events: &mut Vec<Event>, lives: &[Dated]) -> Result<(), AllocError>
    ensures { OnOk result (events.new.items ≡ events.old.items ++ events_of_lives lives.now) }
{
    for dated in lives {
        push_events(events, dated)?;
    }
    Ok(())
}

// Puts the add of a life behind the events, and then its withdrawal where it has one.
fn push_events(events: &mut Vec<Event>, dated: &Dated) -> Result<(), AllocError>
    ensures { OnOk result (events.new.items ≡ events.old.items ++ events_of dated.now) }
{
    events.push(Event {
        event: dated.add_event,
        version: dated.added,
        add: true,
        object: dated.object,
    })?;
    if dated.withdrawn != 0 {
        events.push(Event {
            event: dated.withdraw_event,
            version: dated.withdrawn,
            add: false,
            object: dated.object,
        })?;
    }
    Ok(())
}
