//! The writing of spans to a second disk that holds those of no version, all of them in one commit.
ghost use Rattle.std.specs.Prelude.{◌≡◌, ◌≢◌, ◌+◌, ◌<◌, ◌≤◌, ◌^◌, ℕ, true, false, length, Err, IsTrue, OnErr, OnOk};
ghost use Rattle.std.specs.List.{All};
ghost use Rattle.bw_types.specs.Fits.{IsInRange};
ghost use Rattle.bw_types.specs.History.{History};
ghost use Rattle.ports.specs.Count.{Rose};
ghost use Rattle.ports.specs.Calls.{Changes};
ghost use Rattle.page_space.specs.MetaSet.{FitsBesideCounts, with_counts_of};
ghost use Rattle.page_space.specs.Shown.{IsInOrder, IsMetaSet, IsStagedInOrder, disk_of, disk_under, staged_map, staged_meta};
ghost use Rattle.span_planes.specs.Ended.{abandoning_of};
ghost use Rattle.span_planes.specs.Filled.{CanFill, ComeInTurn, FilledTrees, entries_in, span_growth};
ghost use Rattle.span_planes.specs.Made.{LeavesShown, LeavesSpans, TellsVersion, second_out};
ghost use Rattle.span_planes.specs.Readied.{IsSpaceOfNoVersion, StaysOpened};
ghost use Rattle.span_planes.specs.Writing.{AreAllOf, IsMetaFor};

use crate::Derived;
use crate::filling::fill;
use bw_types::{Params, Tree, object_fits};
use dom_index::DomIndex;
use history_laws::lawful_histories_have_room;
use page_disk::Disk;
use page_layout::Meta;
use page_space::{Space, Staged, holds_one};
use page_warehouse::Event;
use ports::{Pages, StageFault};
use std::alloc::Global;

/// Writes the spans of these events to the space of spans of no version.
pub(crate) fn write<X: DomIndex, E: Disk + Drop>(
    alloc: Global,
    space: Space<E>,
    params: &Params,
    events: &[Event],
    last: u32,
) -> Derived<E>
    requires range { IsInRange params.now }
    requires dims { params.now.dims ≤ X.DIMS }
    requires events { All (CanFill params.now) events.now }
    requires none { IsSpaceOfNoVersion params.now space }
    requires ordered { IsTrue (E.tells (disk_of space)) → IsInOrder space }
    ensures leaves { (h : History) → AreAllOf params.now events.now last h → IsTrue (E.tells (disk_of space))
        → LeavesSpans E.Disk X.DomIndex params.now h (disk_of space) result }
    ensures shown { IsTrue (E.tells (disk_of space)) → LeavesShown E.Disk params.now last (disk_of space) result }
    ensures opened { StaysOpened E.Disk params.now (disk_of space) result }
    ensures version { (e : E) (version : ℕ) → result ≡ Derived.Done e version → version ≡ last }
    ensures disk { (e : E) → result ≡ Derived.Disk e → Rose (E.faults (disk_of space)) (E.faults e) }
    ensures faults { E.faults (disk_of space) ≤ E.faults (second_out result) }
    ensures tells { E.tells (second_out result) ≡ E.tells (disk_of space) }
{
    X::index_laws();
    lawful_histories_have_room();
    holds_one();
    space.is_held();
    let mut stage = space.begin();
    if let Err(fault) = draft::<X, E>(alloc, &mut stage, params, events, last) {
        return abandoned(stage.abandon().into_disk(), fault);
    }
    match stage.commit() {
        Ok(space) => Derived::Done {
            second: space.into_disk(),
            version: last,
        },
        Err(second) => Derived::Disk(second),
    }
}

// How it ends where the stage was abandoned for this fault.
fn abandoned<E: Disk>(second: E, fault: StageFault) -> Derived<E>
    ensures { result ≡ abandoning_of fault second }
{
    match fault {
        StageFault::Disk => Derived::Disk(second),
        StageFault::Damaged(page) => Derived::Damaged { second, page },
        StageFault::PageLimit(allotted) => Derived::PageLimit { second, allotted },
        StageFault::NoMemory => Derived::NoMemory(second),
    }
}

// Fills the trees, and sets the meta page.
fn draft<X: DomIndex, E: Disk>(
    alloc: Global,
    stage: &mut Staged<E>,
    params: &Params,
    events: &[Event],
    last: u32,
) -> Result<(), StageFault>
    requires range { IsInRange params.now }
    requires dims { params.now.dims ≤ X.DIMS }
    requires events { All (CanFill params.now) events.now }
    ensures fills { OnOk result (IsTrue (E.tells (disk_under stage.old)) → ComeInTurn events.now
        → FilledTrees X.DomIndex (staged_map stage.old) (staged_map stage.new) params.now (entries_in events.now) (staged_meta stage.new).roots.items) }
    ensures shown { OnOk result (TellsVersion params.now last (staged_meta stage.new)) }
    ensures meta { OnOk result (length events.now < 2 ^ 32 → IsMetaFor params.now last (length events.now) (staged_meta stage.new)) }
    ensures set { OnOk result (IsMetaSet stage.new) }
    ensures sound { (page : ℕ) → IsTrue (E.tells (disk_under stage.old)) → ComeInTurn events.now → IsStagedInOrder stage.old → result ≢ Err (StageFault.Damaged page) }
    ensures growth { IsTrue (E.tells (disk_under stage.old)) → ComeInTurn events.now
        → Changes ⟦<Staged<E> as Pages>⟧ (span_growth params.now (length events.now)) stage.old stage.new result }
    ensures changes { Changes ⟦<Staged<E> as Pages>⟧ ((staged_meta stage.new).allotted + 1) stage.old stage.new result }
{
    let roots = match fill::<X, Staged<E>>(alloc, stage, params, events) {
        Ok(roots) => roots,
        Err(fault) => return Err(fault),
    };
    let meta = Meta {
        lives: 1,
        version: last,
        events: 0,
        rows: count_of(events),
        allotted: 3,
        free: 0,
        mass: 0,
        table: Tree::default(),
        roots,
    };
    set(stage, &meta)
}

// Sets the meta page.
fn set<E: Disk>(stage: &mut Staged<E>, meta: &Meta) -> Result<(), StageFault>
    requires { FitsBesideCounts meta.now }
    ensures meta { OnOk result (staged_meta stage.new ≡ with_counts_of (staged_meta stage.old) meta.now) }
    ensures set { OnOk result (IsMetaSet stage.new) }
    ensures map { staged_map stage.new ≡ staged_map stage.old }
    ensures changes { Changes ⟦<Staged<E> as Pages>⟧ 0 stage.old stage.new result }
    ensures allotted { (staged_meta stage.new).allotted ≡ (staged_meta stage.old).allotted }
    ensures err { OnErr result (result ≡ Err StageFault.NoMemory) }
{
    match stage.set_meta(meta) {
        Ok(()) => Ok(()),
        Err(_) => Err(StageFault::NoMemory),
    }
}

// How many events there are.
fn count_of(events: &[Event]) -> u32
    ensures { length events.now < 2 ^ 32 → result ≡ length events.now }
{
    u32::try_from(events.len()).unwrap_or(u32::MAX)
}

/// Whether the trees take each of the events.
pub(crate) fn can_fill_all(params: &Params, events: &[Event]) -> bool
    requires { IsInRange params.now }
    ensures yes { result ≡ true → All (CanFill params.now) events.now }
    ensures no { result ≡ false → All (CanFill params.now) events.now → ⊥ }
{
    for event in events {
        if !can_fill(params, event) {
            return false;
        }
    }
    true
}

// Whether the trees take the event.
fn can_fill(params: &Params, event: &Event) -> bool
    requires { IsInRange params.now }
    ensures yes { result ≡ true → CanFill params.now event.now }
    ensures no { result ≡ false → CanFill params.now event.now → ⊥ }
{
    object_fits(&event.object, params) && event.event < 1 << 28 && event.version < u32::MAX
}
