//! Queries, which read the trees alone.
ghost use Rattle.std.specs.Prelude.{◌≡◌, ◌≢◌, ◌+◌, ◌<◌, ◌≤◌, ℕ, Bool, true, Ok, Err, IsSome, IsTrue, IfOk};
ghost use Rattle.bw_types.specs.Answers.{answer};
ghost use Rattle.bw_types.specs.Below.{below_at};
ghost use Rattle.bw_types.specs.Fits.{ends_fit, query_fits};
ghost use Rattle.bw_types.specs.History.{History};
ghost use Rattle.bw_types.specs.Residues.{residue};
ghost use Rattle.ports.specs.Count.{Rose};
ghost use Rattle.ports.specs.Calls.{OnlyReads};
ghost use Rattle.warehouse.specs.Committed.{Answers};
ghost use Rattle.warehouse.specs.Left.{IsAsBefore};
ghost use Rattle.page_warehouse.specs.Costs.{below_cost, query_cost};
ghost use Rattle.page_warehouse.specs.Holds.{HoldsTrees};

use crate::state::Warehouse;
use bw_types::{Kind, Query};
use corner_forest::{below, count, integral, sum};
use dom_index::DomIndex;
use history_laws::{
    answers_are_bounded, entries_are_changes, entries_give_answers, lawful_histories_have_room,
};
use page_disk::Disk;
use page_space::{Space, holds_one};
use ports::{PageFault, Pages};
use warehouse::QueryFault;

impl<D: Disk, X: DomIndex> Warehouse<D, X> {
    ghost use Rattle.page_warehouse.specs.Shown.{HasNewForm, HoldsHistory, disk_charge, disk_in, meta_in, params_in, space_in};

    // What the trees answer, at whatever version.
    fn total(&mut self, query: &Query, version: u32) -> Result<i128, PageFault>
        requires { IsTrue (query_fits (params_in self.old) query.now) }
        ensures answers { IfOk result (λ value. IsTrue (D.tells (disk_in self.old)) → (h : History)
            → HoldsTrees X.DomIndex (D.image (disk_in self.old)) (params_in self.old) h → value ≡ answer (params_in self.old) h version query.now) }
        ensures sound { (h : History) (page : ℕ) → IsTrue (D.tells (disk_in self.old))
            → HoldsTrees X.DomIndex (D.image (disk_in self.old)) (params_in self.old) h → result ≢ Err (PageFault.Damaged page) }
        ensures reads { OnlyReads ⟦<Space<D> as Pages>⟧ (D.reads (disk_in self.new)) (space_in self.old) (space_in self.new) result }
        ensures cost { (h : History) → IsTrue (D.tells (disk_in self.old)) → HoldsTrees X.DomIndex (D.image (disk_in self.old)) (params_in self.old) h
            → D.reads (disk_in self.new) ≤ D.reads (disk_in self.old) + query_cost X.cost (params_in self.old) h query.now }
    {
        // The trees are those of the history, and no integral is too great.
        holds_one();
        entries_give_answers();
        entries_are_changes();
        answers_are_bounded();
        lawful_histories_have_room();
        self.space.is_held();
        match query.kind {
            Kind::Sum => sum::<X, Space<D>>(&mut self.space, &self.forest, query, version),
            Kind::Count => count::<X, Space<D>>(&mut self.space, &self.forest, query, version),
            Kind::Integral => integral::<X, Space<D>>(
                &mut self.space,
                &self.forest,
                query,
                version,
            ),
        }
    }

    /// What the query answers at the version. It takes no memory, and changes neither history nor image.
    ///
    /// `NoVersion` comes exactly where the version is above the last, which it carries, and before any call on
    /// the disk. `Disk` comes only where the count of faults rose, `Damaged` only where the disk holds no history.
    pub fn query(&mut self, query: &Query, version: u32) -> Result<i128, QueryFault>
        requires { IsTrue (query_fits (params_in self.old) query.now) }
        ensures answers { (whole : Bool) (h : History) → HoldsHistory D.Disk X.DomIndex whole (disk_in self.old) (params_in self.old) h
            → Answers (params_in self.old) h version query.now result }
        ensures kept { IsAsBefore params_in disk_in (HoldsHistory D.Disk X.DomIndex) (HasNewForm D.Disk) D.tells D.image D.moments (disk_charge D.Disk) self.old self.new }
        ensures above { (meta_in self.old).version < version → (result ≡ Err (QueryFault.NoVersion (meta_in self.old).version)) × (self.new ≡ self.old) }
        ensures within { (last : ℕ) → version ≤ (meta_in self.old).version → result ≢ Err (QueryFault.NoVersion last) }
        ensures meta { meta_in self.new ≡ meta_in self.old }
        ensures disk { result ≡ Err QueryFault.Disk → Rose (D.faults (disk_in self.old)) (D.faults (disk_in self.new)) }
        ensures faults { D.faults (disk_in self.old) ≤ D.faults (disk_in self.new) }
        ensures reads { (whole : Bool) (h : History) → HoldsHistory D.Disk X.DomIndex whole (disk_in self.old) (params_in self.old) h
            → D.reads (disk_in self.new) ≤ D.reads (disk_in self.old) + query_cost X.cost (params_in self.old) h query.now }
        ensures no_reads { (last : ℕ) → result ≡ Err (QueryFault.NoVersion last) → D.reads (disk_in self.new) ≡ D.reads (disk_in self.old) }
    {
        holds_one();
        self.space.is_held();
        let last = self.last();
        if version > last {
            return Err(QueryFault::NoVersion(last));
        }
        match self.total(query, version) {
            Ok(value) => Ok(value),
            Err(PageFault::Disk) => Err(QueryFault::Disk),
            Err(PageFault::Damaged(page)) => Err(QueryFault::Damaged(page)),
        }
    }

    /// The integral at a version of the objects live there over the parts of their boxes below a corner of stored numbers, times 6 for each
    /// dimension, modulo `2^128`. Boxes that share a corner share it.
    ///
    /// The warehouse has a degree, and the corner's numbers are in range; what holds of `query` holds of it.
    pub fn below(&mut self, at: &[u32; 3], version: u32) -> Result<u128, QueryFault>
        requires degree { IsSome (params_in self.old).degree }
        requires at { ends_fit (params_in self.old) at.now at.now ≡ true }
        ensures below { IfOk result (λ value. (whole : Bool) (h : History) → HoldsHistory D.Disk X.DomIndex whole (disk_in self.old) (params_in self.old) h
            → value ≡ residue (below_at (params_in self.old) h version at.now)) }
        ensures sound { (whole : Bool) (h : History) (page : ℕ) → HoldsHistory D.Disk X.DomIndex whole (disk_in self.old) (params_in self.old) h
            → result ≢ Err (QueryFault.Damaged page) }
        ensures kept { IsAsBefore params_in disk_in (HoldsHistory D.Disk X.DomIndex) (HasNewForm D.Disk) D.tells D.image D.moments (disk_charge D.Disk) self.old self.new }
        ensures above { (meta_in self.old).version < version → (result ≡ Err (QueryFault.NoVersion (meta_in self.old).version)) × (self.new ≡ self.old) }
        ensures within { (last : ℕ) → version ≤ (meta_in self.old).version → result ≢ Err (QueryFault.NoVersion last) }
        ensures meta { meta_in self.new ≡ meta_in self.old }
        ensures disk { result ≡ Err QueryFault.Disk → Rose (D.faults (disk_in self.old)) (D.faults (disk_in self.new)) }
        ensures faults { D.faults (disk_in self.old) ≤ D.faults (disk_in self.new) }
        ensures reads { (whole : Bool) (h : History) → HoldsHistory D.Disk X.DomIndex whole (disk_in self.old) (params_in self.old) h
            → D.reads (disk_in self.new) ≤ D.reads (disk_in self.old) + below_cost X.cost (params_in self.old) h }
        ensures no_reads { (last : ℕ) → result ≡ Err (QueryFault.NoVersion last) → D.reads (disk_in self.new) ≡ D.reads (disk_in self.old) }
    {
        holds_one();
        entries_give_answers();
        entries_are_changes();
        self.space.is_held();
        let last = self.last();
        if version > last {
            return Err(QueryFault::NoVersion(last));
        }
        match below::<X, Space<D>>(&mut self.space, &self.forest, at, version) {
            Ok(value) => Ok(value),
            Err(PageFault::Disk) => Err(QueryFault::Disk),
            Err(PageFault::Damaged(page)) => Err(QueryFault::Damaged(page)),
        }
    }
}
