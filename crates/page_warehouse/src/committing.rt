//! A commit: a batch is judged, entered in pages that stand by, and made lasting, all of it or nothing.
ghost use Rattle.std.specs.Prelude.{◌≡◌, ◌≢◌, ℕ, ◌+◌, ◌^◌, ◌<◌, ◌≤◌, ◌==◌, ◌⊎◌, true, None, Err, length, IsTrue, IfOk};
ghost use Rattle.std.specs.List.{list_all};
ghost use Rattle.bw_types.specs.Fits.{row_fits};
ghost use Rattle.bw_types.specs.History.{History, flat, last_version};
ghost use Rattle.bw_types.specs.Lawful.{IsLawfulBatch};
ghost use Rattle.bw_types.specs.Refusals.{first_refusal, total_mass};
ghost use Rattle.corner_forest.specs.Entries.{root_count};
ghost use Rattle.ports.specs.Count.{Rose};
ghost use Rattle.page_disk.specs.Image.{PageList, page_at};
ghost use Rattle.page_disk.specs.Since.{LeavesNow, LeavesOnly};
ghost use Rattle.redo_journal.specs.Settled.{SettlesTo};
ghost use Rattle.page_space.specs.Shown.{begun_of, disk_of, meta_of, params_of};
ghost use Rattle.session_book.specs.declared.refusals.BookFault.{BookFault};
ghost use Rattle.warehouse.specs.Committed.{IfDisk, IfDone, IfKept, IfPageLimit, IsCommitCause, device_out, with_batch};
ghost use Rattle.warehouse.specs.Left.{DeviceGoesOn};
ghost use Rattle.page_layout.specs.Meta.{meta_in as meta_on};
ghost use Rattle.page_warehouse.specs.Holds.{Holds, IsByLives, table_form};
ghost use Rattle.page_warehouse.specs.Needs.{LacksPagesIn, RisesWithin, charge_of, meta_charge};

use crate::drafting::{Counts, draft};
use crate::ids::table_tells_ids;
use crate::opening::copied;
use crate::roots::Roots;
use crate::seen::TableSeen;
use crate::state::Warehouse;
use bw_types::{Refusal, Row};
use corner_forest::Forest;
use corner_forest::laws::forest_laws;
use dom_index::DomIndex;
use history_laws::histories_grow_by_lawful_batches;
use object_table::Form;
use page_disk::Disk;
use page_layout::Meta;
use page_space::{Space, holds_one};
use ports::StageFault;
use redo_journal::settling_laws;
use session_book::{BookFault, first_refusal};
use std::alloc::Global;
use std::marker::PhantomData;
use warehouse::Committed;

// A warehouse that was judged, and what was found.
#[derive(Drop)]
pub(crate) struct Judged<D: Disk, X: DomIndex> {
    pub(crate) house: Warehouse<D, X>,
    pub(crate) found: Result<Option<Refusal>, BookFault>,
}

// Whether the table has the earlier form.
fn is_by_ids(meta: &Meta) -> bool
    ensures { result ≡ (meta.now.lives == 0) }
{
    meta.lives == 0
}

// What the meta page counts.
fn counts(meta: &Meta) -> Counts
    ensures version { result.version ≡ meta.now.version }
    ensures events { result.events ≡ meta.now.events }
    ensures rows { result.rows ≡ meta.now.rows }
    ensures mass { result.mass ≡ meta.now.mass }
{
    Counts {
        version: meta.version,
        events: meta.events,
        rows: meta.rows,
        mass: meta.mass,
    }
}

// The form of the table that the meta page names.
fn form_of(meta: &Meta) -> Form
    ensures { result ≡ table_form meta.now }
{
    if is_by_ids(meta) {
        Form::ByIds
    } else {
        Form::ByLives
    }
}

impl<D: Disk, X: DomIndex> Warehouse<D, X> {
    ghost use Rattle.page_warehouse.specs.Shown.{HoldsHistory, disk_in, meta_in, params_in, space_in};

    // The warehouse over a space whose meta page keeps the rules of one.
    pub(crate) fn over(alloc: Global, space: Space<D>) -> Warehouse<D, X>
        requires dims { (params_of space).dims ≤ X.DIMS }
        requires roots { length (meta_of space).roots.items ≡ root_count (params_of space) }
        requires rows { (meta_of space).version + (meta_of space).rows ≡ (meta_of space).events }
        requires events { (meta_of space).events ≤ (params_of space).events }
        requires mass { (meta_of space).mass < 2 ^ 126 }
        ensures { space_in result ≡ space }
    {
        let forest = Forest {
            params: space.params(),
            roots: copied(space.meta().roots.as_slice()),
        };
        Warehouse {
            alloc,
            space,
            forest,
            index: PhantomData,
        }
    }

    // The first refusal of the rows, by what the table tells.
    pub(crate) fn judge(self, rows: &[Row]) -> Judged<D, X>
        requires fit { IsTrue (list_all (row_fits (params_in self)) rows.now) }
        ensures stays { begun_of (space_in result.house) ≡ begun_of (space_in self) }
        ensures faults { D.faults (disk_in self) ≤ D.faults (disk_in result.house) }
        ensures ok { IfOk result.found (λ refusal. (h : History) → HoldsHistory D.Disk X.DomIndex true (disk_in self) (params_in self) h
            → refusal ≡ first_refusal (params_in self) h rows.now) }
        ensures room { IfOk result.found (λ refusal. refusal ≡ None → (meta_in self).events + length (flat rows.now) + 1 ≤ (params_in self).events) }
        ensures light { IfOk result.found (λ refusal. refusal ≡ None → (meta_in self).mass + total_mass (params_in self) (flat rows.now) < 2 ^ 126) }
        ensures disk { result.found ≡ Err BookFault.Disk → Rose (D.faults (disk_in self)) (D.faults (disk_in result.house)) }
        ensures sound { (h : History) (page : ℕ) → HoldsHistory D.Disk X.DomIndex true (disk_in self) (params_in self) h → result.found ≢ Err (BookFault.Damaged page) }
    {
        holds_one();
        table_tells_ids();
        self.space.is_held();
        let Warehouse {
            alloc,
            space,
            forest: _,
            index: _,
        } = self;
        let (params, events, mass) = (space.params(), space.meta().events, space.meta().mass);
        let (form, table) = (form_of(space.meta()), space.meta().table);
        let mut seen = TableSeen { space, form, table };
        let found = first_refusal(alloc, &mut seen, &params, events, mass, rows);
        Judged {
            house: Warehouse::over(alloc, seen.space),
            found,
        }
    }

    // What becomes of the warehouse where the stage is abandoned for this fault.
    fn given_back(
        alloc: Global,
        space: Space<D>,
        fault: StageFault,
    ) -> Committed<Warehouse<D, X>, D>
        requires dims { (params_of space).dims ≤ X.DIMS }
        requires roots { length (meta_of space).roots.items ≡ root_count (params_of space) }
        requires rows { (meta_of space).version + (meta_of space).rows ≡ (meta_of space).events }
        requires events { (meta_of space).events ≤ (params_of space).events }
        requires mass { (meta_of space).mass < 2 ^ 126 }
        ensures kept { IfKept result (λ house. space_in house ≡ space) }
        ensures device { device_out disk_in result ≡ disk_of space }
        ensures disk { IfDisk result (fault ≡ StageFault.Disk) }
        ensures cause { ((page : ℕ) → fault ≢ StageFault.Damaged page) → IsCommitCause None result }
        ensures page_limit { IfPageLimit result (λ house allotted. fault ≡ StageFault.PageLimit allotted) }
        ensures not_done { IfDone result (λ house version. ⊥) }
    {
        match fault {
            StageFault::Disk => Committed::Disk {
                device: space.into_disk(),
            },
            StageFault::Damaged(page) => Committed::Damaged {
                house: Warehouse::over(alloc, space),
                page,
            },
            StageFault::PageLimit(allotted) => Committed::PageLimit {
                house: Warehouse::over(alloc, space),
                allotted,
            },
            StageFault::NoMemory => Committed::NoMemory {
                house: Warehouse::over(alloc, space),
            },
        }
    }

    // Proves that the disk counts as many pages against the limit as the meta page that is kept; it does nothing when it runs.
    fn is_charged(&self)
        ensures { IsTrue (D.tells (disk_in self.now)) → charge_of (D.image (disk_in self.now)) ≡ meta_charge (meta_in self.now) }
    {
        self.is_in_place();
    }

    // Proves that the meta page in its place on the disk is the one that is kept; it does nothing when it runs.
    fn is_in_place(&self)
        ensures { IsTrue (D.tells (disk_in self.now)) → meta_on (page_at (D.image (disk_in self.now)).pages 2) ≡ meta_in self.now }
    {
        settling_laws();
        self.space.is_held();
    }

    // Proves that the disk stands for its own pages alone; it does nothing when it runs.
    pub(crate) fn is_settled(&self)
        ensures { IsTrue (D.tells (disk_in self.now)) → (pages : PageList) → SettlesTo (D.image (disk_in self.now)) pages
            → (D.image (disk_in self.now)).pages ≡ pages }
    {
        settling_laws();
        self.space.is_held();
    }

    // Puts rows that have no refusal last in the history.
    pub(crate) fn put(self, rows: &[Row]) -> Committed<Warehouse<D, X>, D>
        requires fit { IsTrue (list_all (row_fits (params_in self)) rows.now) }
        requires room { (meta_in self).events + length (flat rows.now) + 1 ≤ (params_in self).events }
        requires light { (meta_in self).mass + total_mass (params_in self) (flat rows.now) < 2 ^ 126 }
        ensures cause { (h : History) → HoldsHistory D.Disk X.DomIndex true (disk_in self) (params_in self) h
            → IsLawfulBatch (params_in self) h (flat rows.now) → IsCommitCause None result }
        ensures done { (h : History) → HoldsHistory D.Disk X.DomIndex true (disk_in self) (params_in self) h
            → IsLawfulBatch (params_in self) h (flat rows.now) → IfDone result (λ house version.
            (version ≡ last_version h + 1) × HoldsHistory D.Disk X.DomIndex true (disk_in house) (params_in self) (with_batch h rows.now)) }
        ensures kept { IfKept result (λ house. begun_of (space_in house) ≡ begun_of (space_in self)) }
        ensures params_done { IfDone result (λ house version. params_in house ≡ params_in self) }
        ensures by_lives { IfDone result (λ house version. IsTrue (D.tells (disk_in house)) → IsByLives (D.image (disk_in house))) }
        ensures any_moment { (h : History) → HoldsHistory D.Disk X.DomIndex true (disk_in self) (params_in self) h
            → IsLawfulBatch (params_in self) h (flat rows.now) → LeavesOnly
            (λ x. Holds X.DomIndex x (params_in self) h ⊎ Holds X.DomIndex x (params_in self) (with_batch h rows.now))
            (D.moments (disk_in self)) (D.moments (device_out disk_in result)) }
        ensures settled { IfDone result (λ house version. LeavesNow (D.moments (disk_in house)) (D.image (disk_in house))) }
        ensures at_limit { IfPageLimit result (λ house allotted. allotted ≡ (params_in self).pages) }
        ensures page_limit { (h : History) → HoldsHistory D.Disk X.DomIndex true (disk_in self) (params_in self) h
            → IsLawfulBatch (params_in self) h (flat rows.now) → IfPageLimit result (λ house allotted.
            LacksPagesIn (D.image (disk_in self)).pages (params_in self) h rows.now) }
        ensures rises { (h : History) → HoldsHistory D.Disk X.DomIndex true (disk_in self) (params_in self) h
            → IsLawfulBatch (params_in self) h (flat rows.now) → IfDone result (λ house version.
            RisesWithin (D.image (disk_in self)) (params_in self) h rows.now (D.image (disk_in house))) }
        ensures device { DeviceGoesOn disk_in D.tells D.faults (disk_in self) result }
    {
        // One space stands on a disk, and the batch makes a lawful history.
        holds_one();
        settling_laws();
        histories_grow_by_lawful_batches();
        forest_laws::<X>();
        self.space.is_held();
        self.is_charged();
        let Warehouse {
            alloc,
            space,
            forest,
            index: _,
        } = self;
        let (by_ids, before, table) = (
            is_by_ids(space.meta()),
            counts(space.meta()),
            space.meta().table,
        );
        let mut roots = Roots { table, forest };
        let mut stage = space.begin();
        if let Err(fault) = draft::<D, X>(alloc, &mut stage, &mut roots, by_ids, before, rows) {
            return Warehouse::given_back(alloc, stage.abandon(), fault);
        }
        match stage.commit() {
            Ok(space) => {
                let house = Warehouse::over(alloc, space);
                house.is_charged();
                house.is_in_place();
                Committed::Done {
                    house,
                    version: before.version + 1,
                }
            }
            Err(device) => Committed::Disk { device },
        }
    }
}
