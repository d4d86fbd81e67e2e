//! What is kept of a history from a version on.
ghost use Rattle.std.specs.Prelude.{◌≡◌, ◌≢◌, ◌≤◌, ◌+◌, ◌<◌, ◌^◌, ◌↔◌, ℕ, true, IfOk, IsTrue, Err, length, map, drop};
ghost use Rattle.bw_types.specs.History.{History, live};
ghost use Rattle.bw_types.specs.declared.change.Change.TheVariants.{Add};
ghost use Rattle.ports.specs.Count.{Rose};
ghost use Rattle.history_laws.specs.Living.{is_live_at, objects_at};
ghost use Rattle.page_warehouse.specs.Events.{AreEventsOf, change_in};
ghost use Rattle.page_warehouse.specs.Told.{HasNumbersOf};
ghost use Rattle.page_warehouse.specs.Shown.{HasNewForm, HoldsHistory, disk_charge, disk_in, meta_in, params_in};
ghost use Rattle.warehouse.specs.Left.{IsAsBefore};
ghost use Rattle.compact_store.specs.Cuts.{count_to};
ghost use Rattle.compact_store.specs.Keeping.{HaveRoom, IsKept};

use bw_types::Dated;
use dom_index::DomIndex;
use history_laws::lives_tell_live_objects;
use page_disk::Disk;
use page_warehouse::{Event, GatherFault, Warehouse, gather, gather_lives};
use std::alloc::{AllocError, Global};

// The number of the meta page.
const META_PAGE: u64 = 2;

/// What is kept of a history from a version on.
#[derive(Drop)]
pub(crate) struct Kept {
    /// The adds of the objects that are live at the version, in order of adding.
    pub adds: Vec<Event>,
    /// All events of the history.
    pub events: Vec<Event>,
}

/// Gathers what is kept of the history of the house from a version on.
///
/// Whatever the disk holds, the events are those of a history with the numbers of the meta page, the adds have room in the batches up to the
/// version, and 32 bits count both: else it is `Damaged` with the number of that page, so that none is left out.
///
/// The house and its disk stay as they were.
pub(crate) fn gather_kept<D: Disk, X: DomIndex>(
    alloc: Global,
    house: &mut Warehouse<D, X>,
    version: u32,
) -> Result<Kept, GatherFault>
    ensures found { IfOk result (λ found. (h : History) → HoldsHistory D.Disk X.DomIndex true (disk_in house.old) (params_in house.old) h
        → IsKept h version found.adds.items found.events.items) }
    ensures told { IfOk result (λ found. (h : History) × (AreEventsOf found.events.items h) × HasNumbersOf (meta_in house.old) h) }
    ensures room { IfOk result (λ found. HaveRoom version found.adds.items found.events.items) }
    ensures kept { IsAsBefore params_in disk_in (HoldsHistory D.Disk X.DomIndex) (HasNewForm D.Disk) D.tells D.image D.moments (disk_charge D.Disk) house.old house.new }
    ensures meta { meta_in house.new ≡ meta_in house.old }
    ensures sound { (h : History) (page : ℕ) → HoldsHistory D.Disk X.DomIndex true (disk_in house.old) (params_in house.old) h
        → result ≢ Err (GatherFault.Damaged page) }
    ensures disk { result ≡ Err GatherFault.Disk → Rose (D.faults (disk_in house.old)) (D.faults (disk_in house.new)) }
    ensures faults { D.faults (disk_in house.old) ≤ D.faults (disk_in house.new) }
{
    lives_tell_live_objects();
    let events = match gather(alloc, house) {
        Ok(events) => events,
        Err(fault) => return Err(fault),
    };
    let lives = match gather_lives(alloc, house) {
        Ok(lives) => lives,
        Err(fault) => return Err(fault),
    };
    let Ok(adds) = adds_at(alloc, &lives, version) else {
        return Err(GatherFault::NoMemory);
    };
    if !have_room(version, &adds, &events) {
        return Err(GatherFault::Damaged(META_PAGE));
    }
    Ok(Kept { adds, events })
}

// Whether the adds have room in the batches up to the version, 4096 in each, and 32 bits count them and the events together.
fn have_room(version: u32, adds: &[Event], events: &[Event]) -> bool
    ensures { IsTrue result ↔ HaveRoom version adds.now events.now }
{
    adds.len() as u64 <= 4096 * version as u64 && adds.len() + events.len() <= u32::MAX as usize
}

// The adds of the objects of the lives that are live at the version, in the order of the lives.
fn adds_at(alloc: Global, lives: &[Dated], version: u32) -> Result<Vec<Event>, AllocError>
    ensures { IfOk result (λ adds. map change_in adds.items ≡ map Add (objects_at version lives.now)) }
{
    let mut adds = Vec::new(alloc);
    for dated in lives {
        if is_live_at(dated, version) {
            adds.push(Event {
                event: dated.add_event,
                version: dated.added,
                add: true,
                object: dated.object,
            })?;
        }
    }
    Ok(adds)
}

// Whether the object of the life is live at the version.
fn is_live_at(dated: &Dated, version: u32) -> bool
    ensures { result ≡ is_live_at version dated.now }
{
    dated.added <= version && (dated.withdrawn == 0 || dated.withdrawn > version)
}

/// The events of the versions after this one.
pub(crate) fn events_after(version: u32, events: &[Event]) -> &[Event]
    ensures { result.now ≡ drop (count_to version events.now) events.now }
{
    events.split_at(count_to(version, events)).1
}

// How many events from the first on are of versions up to this one.
fn count_to(version: u32, events: &[Event]) -> usize
    ensures count { result ≡ count_to version events.now }
    ensures within { result ≤ length events.now }
{
    events
        .iter()
        .take_while(|event| event.version <= version)
        .count()
}

/// How many there are of both.
pub(crate) fn row_count(adds: &[Event], later: &[Event]) -> u32
    requires { length adds.now + length later.now < 2 ^ 32 }
    ensures { result ≡ length adds.now + length later.now }
{
    (adds.len() + later.len()) as u32
}
