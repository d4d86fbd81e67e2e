//! A batch on a stage, with the meta page of the history that it makes.
ghost use Rattle.std.specs.Prelude.{◌≡◌, ℕ, ◌+◌, ◌*◌, ◌^◌, ◌<◌, ◌≤◌, length, Err, IsTrue, OnErr, OnOk, if◌then◌else◌};
ghost use Rattle.std.specs.List.{All, list_all};
ghost use Rattle.bw_types.specs.Fits.{row_fits};
ghost use Rattle.bw_types.specs.History.{History, changes, flat, last_version};
ghost use Rattle.bw_types.specs.Lawful.{IsLawful, IsLawfulBatch};
ghost use Rattle.bw_types.specs.Refusals.{total_mass};
ghost use Rattle.ports.specs.Count.{Rose};
ghost use Rattle.history_laws.specs.Bounds.{HasSmallWeight};
ghost use Rattle.ports.specs.Calls.{Changes};
ghost use Rattle.page_space.specs.MetaSet.{FitsBesideCounts, with_counts_of};
ghost use Rattle.page_space.specs.Shown.{IsMetaSet, base_of, disk_under, staged_map, staged_meta};
ghost use Rattle.corner_forest.specs.Enters.{first_pages};
ghost use Rattle.page_warehouse.specs.Begun.{with_changes};
ghost use Rattle.page_warehouse.specs.Entering.{FormKeeps, KeepsOn, PagesKeep, RootsFit, StayRoots};
ghost use Rattle.page_warehouse.specs.Needs.{StayOnePage, changes_need};
ghost use Rattle.page_warehouse.specs.NextMeta.{IsNextMeta};

use crate::masses::mass_with;
use crate::opening::copied;
use crate::roots::Roots;
use crate::upgrading::enter_batch;
use bw_types::Row;
use dom_index::DomIndex;
use page_disk::Disk;
use page_layout::Meta;
use page_space::Staged;
use ports::{Pages, StageFault};
use std::alloc::Global;

/// What the meta page counts of a history: its versions, events, adds and withdrawals, and its mass.
#[derive(Clone, Copy)]
pub(crate) struct Counts {
    pub(crate) version: u32,
    pub(crate) events: u32,
    pub(crate) rows: u32,
    pub(crate) mass: u128,
}

/// Enters the rows, in a table of the earlier form where `by_ids`, and sets the meta page.
pub(crate) fn draft<D: Disk, X: DomIndex>(
    alloc: Global,
    stage: &mut Staged<D>,
    roots: &mut Roots,
    by_ids: bool,
    before: Counts,
    rows: &[Row],
) -> Result<(), StageFault>
    requires roots { RootsFit X.DIMS roots.old }
    requires fit { IsTrue (list_all (row_fits roots.old.forest.params) rows.now) }
    requires numbers { before.version + before.rows ≡ before.events }
    requires room { before.events + length (flat rows.now) + 1 ≤ 2 ^ 28 }
    requires light { before.mass + total_mass roots.old.forest.params (flat rows.now) < 2 ^ 126 }
    ensures keeps_on { IsTrue (D.tells (disk_under stage.old)) → (h : History) → IsLawful roots.old.forest.params h
        → IsLawfulBatch roots.old.forest.params h (flat rows.now) → before.version ≡ last_version h → before.rows ≡ length (changes h)
        → FormKeeps X.DomIndex by_ids (staged_map stage.old) roots.old h
        → KeepsOn ⟦<Staged<D> as Pages>⟧ ((if by_ids then 8 * roots.old.table.count else 0) + changes_need roots.old.forest.params (length (changes h)) (length (flat rows.now))) stage.old stage.new result
        (PagesKeep X.DomIndex (staged_map stage.new) roots.new (with_changes h (flat rows.now))) }
    ensures small { IsTrue (D.tells (disk_under stage.old)) → (h : History) → IsLawful roots.old.forest.params h
        → IsLawfulBatch roots.old.forest.params h (flat rows.now) → before.version ≡ last_version h → before.rows ≡ length (changes h)
        → FormKeeps X.DomIndex by_ids (staged_map stage.old) roots.old h
        → StayOnePage roots.old.forest.params (length (changes h) + length (flat rows.now)) roots.old.forest.roots.items
        → Changes ⟦<Staged<D> as Pages>⟧ ((if by_ids then 8 * roots.old.table.count else 0) + (8 * length (flat rows.now) + first_pages roots.old.forest.params roots.old.forest.roots.items)) stage.old stage.new result }
    ensures roots { StayRoots X.DIMS roots.old roots.new result }
    ensures meta { OnOk result (IsNextMeta before (length (flat rows.now)) (total_mass roots.old.forest.params (flat rows.now)) roots.new (staged_meta stage.new)) }
    ensures weights { OnOk result (All HasSmallWeight (flat rows.now)) }
    ensures set { OnOk result (IsMetaSet stage.new) }
    ensures base { base_of stage.new ≡ base_of stage.old }
    ensures faults { D.faults (disk_under stage.old) ≤ D.faults (disk_under stage.new) }
    ensures disk { result ≡ Err StageFault.Disk → Rose (D.faults (disk_under stage.old)) (D.faults (disk_under stage.new)) }
    ensures limit { (n : ℕ) → result ≡ Err (StageFault.PageLimit n) → n ≡ (base_of stage.old).params.pages }
{
    let mass = mass_with(&roots.forest.params, rows, before.mass);
    let end = enter_batch::<X, Staged<D>>(
        alloc,
        stage,
        roots,
        by_ids,
        rows,
        before.rows,
        before.version + 1,
    )?;
    let meta = Meta {
        lives: 1,
        version: before.version + 1,
        events: before.events + (end - before.rows) + 1,
        rows: end,
        allotted: 3,
        free: 0,
        mass,
        table: roots.table,
        roots: copied(roots.forest.roots.as_slice()),
    };
    set(stage, &meta)
}

// Sets the meta page.
fn set<D: Disk>(stage: &mut Staged<D>, meta: &Meta) -> Result<(), StageFault>
    requires { FitsBesideCounts meta.now }
    ensures meta { OnOk result (staged_meta stage.new ≡ with_counts_of (staged_meta stage.old) meta.now) }
    ensures set { OnOk result (IsMetaSet stage.new) }
    ensures map { staged_map stage.new ≡ staged_map stage.old }
    ensures changes { Changes ⟦<Staged<D> as Pages>⟧ 0 stage.old stage.new result }
    ensures base { base_of stage.new ≡ base_of stage.old }
    ensures disk { disk_under stage.new ≡ disk_under stage.old }
    ensures err { OnErr result (result ≡ Err StageFault.NoMemory) }
{
    match stage.set_meta(meta) {
        Ok(()) => Ok(()),
        Err(_) => Err(StageFault::NoMemory),
    }
}
