//! Sums over spans of versions.
ghost use Rattle.std.specs.Prelude.{◌≡◌, ◌≢◌, ◌+◌, ◌*◌, ◌<◌, ◌≤◌, ℕ, true, length, Err, IfOk};
ghost use Rattle.bw_types.specs.Fits.{ends_fit};
ghost use Rattle.bw_types.specs.History.{History, changes};
ghost use Rattle.bw_types.specs.Residues.{residue};
ghost use Rattle.bw_types.specs.declared.params.Params.{Params};
ghost use Rattle.ports.specs.Count.{Rose};
ghost use Rattle.corner_forest.specs.Entries.{corner_count};
ghost use Rattle.ports.specs.Calls.{OnlyReads};
ghost use Rattle.span_planes.specs.Asked.{AreAsBefore};
ghost use Rattle.span_planes.specs.Shown.{span_cost};
ghost use Rattle.span_planes.specs.SpanSums.{span_sum, sum_up_to};

use crate::{Spans, spans_are_differences};
use bw_types::{Kind, Query, res_add, res_mul, res_neg, res_signed};
use corner_forest::met;
use corner_weights::meeting::entries_meet_by_corners;
use dom_index::DomIndex;
use history_laws::{entries_are_changes, entries_give_answers, lawful_histories_have_room};
use page_disk::Disk;
use page_space::{Space, holds_one};
use ports::{PageFault, Pages};
use warehouse::QueryFault;

impl<E: Disk, X: DomIndex> Spans<E, X> {
    ghost use Rattle.span_planes.specs.Shown.{HoldsSpans, disk_in, meta_in, params_in, space_in};

    // The sum of the answers up to a version, modulo 2^128: its own answer for each version, less the dated weights.
    fn up_to(&mut self, query: &Query, version: u32) -> Result<u128, PageFault>
        requires { ends_fit (params_in self.old) query.now.low query.now.high ≡ true }
        ensures value { IfOk result (λ value. (params : Params) (h : History) → HoldsSpans E.Disk X.DomIndex (disk_in self.old) params h
            → value ≡ residue (sum_up_to params h version query.now)) }
        ensures sound { (params : Params) (h : History) (page : ℕ) → HoldsSpans E.Disk X.DomIndex (disk_in self.old) params h
            → result ≢ Err (PageFault.Damaged page) }
        ensures reads { OnlyReads ⟦<Space<E> as Pages>⟧ (E.reads (disk_in self.new)) (space_in self.old) (space_in self.new) result }
        ensures cost { (params : Params) (h : History) → HoldsSpans E.Disk X.DomIndex (disk_in self.old) params h
            → E.reads (disk_in self.new) ≤ E.reads (disk_in self.old) + 2 * (corner_count params * X.cost params.dims (length (changes h))) }
    {
        // The trees are those of the history, whose entries meet the query by their corners.
        holds_one();
        entries_are_changes();
        entries_give_answers();
        entries_meet_by_corners();
        lawful_histories_have_room();
        self.space.is_held();
        let params = self.space.params();
        let (plain_roots, dated_roots) = self.roots.as_slice().split_at(self.roots.len() / 2);
        let plain = met::<X, Space<E>>(&mut self.space, &params, plain_roots, query, version)?;
        let dated = met::<X, Space<E>>(&mut self.space, &params, dated_roots, query, version)?;
        Ok(res_add(res_mul(u128::from(version) + 1, plain), res_neg(dated)))
    }

    /// The sum of the answers of all versions from `first` to `last` to a query for a sum. It takes no memory, and changes neither the spans nor
    /// the image.
    ///
    /// `NoVersion` comes exactly where `last` is above the last version, which it carries, and before any call on the disk. `Disk` comes only
    /// where the count of faults rose, `Damaged` only where the disk holds spans of no history.
    pub fn query(&mut self, query: &Query, first: u32, last: u32) -> Result<i128, QueryFault>
        requires ends { ends_fit (params_in self.old) query.now.low query.now.high ≡ true }
        requires sum { query.now.kind ≡ Kind.Sum }
        requires span { first ≤ last }
        ensures answers { IfOk result (λ value. (params : Params) (h : History) → HoldsSpans E.Disk X.DomIndex (disk_in self.old) params h
            → value ≡ span_sum params h first last query.now) }
        ensures sound { (params : Params) (h : History) (page : ℕ) → HoldsSpans E.Disk X.DomIndex (disk_in self.old) params h
            → result ≢ Err (QueryFault.Damaged page) }
        ensures kept { AreAsBefore E.Disk X.DomIndex self.old self.new }
        ensures above { (meta_in self.old).version < last → (result ≡ Err (QueryFault.NoVersion (meta_in self.old).version)) × (self.new ≡ self.old) }
        ensures within { (version : ℕ) → last ≤ (meta_in self.old).version → result ≢ Err (QueryFault.NoVersion version) }
        ensures disk { result ≡ Err QueryFault.Disk → Rose (E.faults (disk_in self.old)) (E.faults (disk_in self.new)) }
        ensures faults { E.faults (disk_in self.old) ≤ E.faults (disk_in self.new) }
        ensures reads { (params : Params) (h : History) → HoldsSpans E.Disk X.DomIndex (disk_in self.old) params h
            → E.reads (disk_in self.new) ≤ E.reads (disk_in self.old) + span_cost X.cost params h }
        ensures no_reads { (version : ℕ) → result ≡ Err (QueryFault.NoVersion version) → E.reads (disk_in self.new) ≡ E.reads (disk_in self.old) }
    {
        let newest = self.last();
        if last > newest {
            return Err(QueryFault::NoVersion(newest));
        }
        match self.between(query, first, last) {
            Ok(value) => Ok(value),
            Err(PageFault::Disk) => Err(QueryFault::Disk),
            Err(PageFault::Damaged(page)) => Err(QueryFault::Damaged(page)),
        }
    }

    // The difference of the sum up to the last version and the one before the first.
    fn between(&mut self, query: &Query, first: u32, last: u32) -> Result<i128, PageFault>
        requires ends { ends_fit (params_in self.old) query.now.low query.now.high ≡ true }
        requires span { first ≤ last }
        ensures answers { IfOk result (λ value. (params : Params) (h : History) → HoldsSpans E.Disk X.DomIndex (disk_in self.old) params h
            → value ≡ span_sum params h first last query.now) }
        ensures sound { (params : Params) (h : History) (page : ℕ) → HoldsSpans E.Disk X.DomIndex (disk_in self.old) params h
            → result ≢ Err (PageFault.Damaged page) }
        ensures reads { OnlyReads ⟦<Space<E> as Pages>⟧ (E.reads (disk_in self.new)) (space_in self.old) (space_in self.new) result }
        ensures cost { (params : Params) (h : History) → HoldsSpans E.Disk X.DomIndex (disk_in self.old) params h
            → E.reads (disk_in self.new) ≤ E.reads (disk_in self.old) + span_cost X.cost params h }
    {
        // A span is a difference of residues, and small enough to be read as a signed number.
        spans_are_differences();
        lawful_histories_have_room();
        holds_one();
        self.space.is_held();
        let whole = self.up_to(query, last)?;
        if first == 0 {
            return Ok(res_signed(whole));
        }
        let before = self.up_to(query, first - 1)?;
        Ok(res_signed(res_add(whole, res_neg(before))))
    }
}
