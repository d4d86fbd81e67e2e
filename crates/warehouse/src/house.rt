//! A house: it keeps a history, on a device or in memory.
ghost use Rattle.std.specs.Prelude.{◌≡◌, ◌+◌, ◌<◌, ◌≤◌, ℕ, Bool, true, List, length, Some, Err, IsTrue};
ghost use Rattle.std.specs.List.{list_all};
ghost use Rattle.bw_types.specs.Fits.{IsInRange, row_fits, query_fits};
ghost use Rattle.bw_types.specs.History.{History, last_version};
ghost use Rattle.bw_types.specs.Refusals.{first_refusal};
ghost use Rattle.bw_types.specs.declared.params.Params.{Params};
ghost use Rattle.bw_types.specs.declared.query.Query.{Query};
ghost use Rattle.bw_types.specs.declared.refusal.Refusal.{Refusal};
ghost use Rattle.bw_types.specs.declared.row.Row.{Row};
ghost use Rattle.ports.specs.Count.{Rose};
ghost use Rattle.warehouse.specs.Committed.{Answers, IfDone, IfKept, IfPageLimit, IsCommitCause, after_commit, device_out};
ghost use Rattle.warehouse.specs.Left.{CrashLeavesEither, DeviceGoesOn, IsAsBefore, IsPutLast};

use crate::committed::{Committed, QueryFault};
use bw_types::{Params, Query, Row};

/// Keeps a history, answers queries on it and takes batches.
///
/// What is kept lies on a device, which goes in by value and comes back at every end. What a crash may
/// leave of it is told by its moments.
pub trait House: Drop {
    /// What lasts when the house is gone.
    type Device;

    /// What a crash leaves.
    ghost Image: { Type 0 };

    /// What is known of all crashes since the device began.
    ghost Moments: { Type 0 };

    ghost params: { Self → Params };

    ghost device: { Self → Self.Device };

    /// The device stands for this history: whole, or (false) as far as queries read.
    ghost stands: { Bool → Self.Device → Params → History → Type 0 };

    /// Whether the device tells what it holds.
    ghost tells: { Self.Device → Bool };

    /// What reads of the device give.
    ghost image: { Self.Device → Image };

    ghost moments: { Self.Device → Moments };

    /// The clock never falls, and rises wherever a call changes what a crash may leave.
    ghost clock: { Moments → ℕ };

    /// A crash now may leave this image.
    ghost now: { Moments → Image → Type 0 };

    /// A crash at some moment since the clock stood there may have left this image.
    ghost since: { Moments → ℕ → Image → Type 0 };

    /// The image holds this history.
    ghost keeps: { Image → Params → History → Type 0 };

    /// How often a page was read, and how often the device failed.
    ghost reads: { Self.Device → ℕ };

    ghost faults: { Self.Device → ℕ };

    /// On a device that stands for the history a commit of these rows may find no page: the number of
    /// pages that it may ask for passes the limit.
    ghost lacks_pages: { Self.Device → Params → History → List Row → Type 0 };

    /// The device keeps its history in the form that this program writes, not in an earlier one that it reads.
    ghost is_current: { Self.Device → Type 0 };

    /// The pages that count against the limit. A batch that is put last raises them by what it needs, and nothing
    /// else changes them.
    ghost charge: { Self.Device → ℕ };

    /// The most pages that a batch of these rows needs on a history.
    ghost need: { Params → History → List Row → ℕ };

    /// From the first device to the last the pages that count against the limit rose by no more than a batch of
    /// these rows takes, on a history for which the first one stands.
    ghost rises_within: { Self.Device → Params → History → List Row → Self.Device → Type 0 };

    /// The most reads of a query on a history.
    ghost cost: { Params → History → Query → ℕ };

    fn params(&self) -> Params
        ensures value { result ≡ params self.now }
        ensures range { IsInRange result };

    /// The number of the last version.
    fn last(&self) -> u32
        ensures { (whole : Bool) (h : History) → stands whole (device self.now) (params self.now) h → result ≡ last_version h };

    /// What the query answers at the version. It takes no memory, and changes neither history nor image.
    fn query(&mut self, query: &Query, version: u32) -> Result<i128, QueryFault>
        requires { IsTrue (query_fits (params self.old) query.now) }
        ensures answers { (whole : Bool) (h : History) → stands whole (device self.old) (params self.old) h →
            Answers (params self.old) h version query.now result }
        ensures kept { IsAsBefore params device stands is_current tells image moments charge self.old self.new }
        ensures disk { result ≡ Err QueryFault.Disk → Rose (faults (device self.old)) (faults (device self.new)) }
        ensures faults { faults (device self.old) ≤ faults (device self.new) }
        ensures reads { (whole : Bool) (h : History) → stands whole (device self.old) (params self.old) h →
            reads (device self.new) ≤ reads (device self.old) + cost (params self.old) h query.now }
        ensures no_reads { (last : ℕ) → result ≡ Err (QueryFault.NoVersion last) → reads (device self.new) ≡ reads (device self.old) };

    /// Puts the batch of rows last in the history, or gives its first refusal.
    fn commit(self, rows: &[Row]) -> Committed<Self, Self::Device>
        requires fit { IsTrue (list_all (row_fits (params self)) rows.now) }
        requires most { length rows.now ≤ 4096 }
        ensures cause { (h : History) → stands true (device self) (params self) h →
            IsCommitCause (first_refusal (params self) h rows.now) result }
        ensures done { (h : History) → stands true (device self) (params self) h → IfDone result
            (IsPutLast params device stands moments now keeps charge need rises_within h rows.now self) }
        // A device that kept its history in an earlier form is written anew with the first batch that is put last.
        ensures renewed { IfDone result (λ house version. is_current (device house) × (params house ≡ params self)) }
        ensures kept { IfKept result (IsAsBefore params device stands is_current tells image moments charge self) }
        ensures crash { (h : History) → stands true (device self) (params self) h → CrashLeavesEither clock since now keeps
            (params self) h (after_commit (first_refusal (params self) h rows.now) h rows.now) (moments (device self)) (moments (device_out device result)) }
        // A batch that has a refusal changes nothing, whatever is answered, and also where the device fails.
        ensures refused { (h : History) (refusal : Refusal) → stands true (device self) (params self) h
            → first_refusal (params self) h rows.now ≡ Some refusal
            → (moments (device_out device result) ≡ moments (device self)) × (image (device_out device result) ≡ image (device self)) }
        ensures page_limit { IfPageLimit result (λ house allotted. (allotted ≡ (params self).pages)
            × ((h : History) → stands true (device self) (params self) h → lacks_pages (device house) (params self) h rows.now
            × ((params self).pages < charge (device house) + need (params self) h rows.now))) }
        ensures device { DeviceGoesOn device tells faults (device self) result };

    /// Gives back what lasts.
    fn into_device(self) -> Self::Device
        ensures { result ≡ device self };
}
