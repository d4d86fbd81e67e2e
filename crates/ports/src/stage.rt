//! A stage of changes to pages.
ghost use Rattle.std.specs.Prelude.{◌≡◌, ◌≢◌, ◌+◌, ◌≤◌, ◌<◌, ℕ, List, [], ◌∷◌, Some, None, Ok, Err, IsTrue, IsSome, IfOk, OnOk, OnErr, slice_index};
ghost use Rattle.ports.specs.Calls.{Changes};
ghost use Rattle.ports.specs.Chain.{TakesFirst};
ghost use Rattle.ports.specs.Pages.{put_page, remove_page, blank_bytes};

use crate::{Page, Pages, StageFault};

/// Pages that can be given out, overwritten and freed.
///
/// After a refusal the map is as it was. A refusal for `Disk` comes only where the count of faults rose.
pub trait Stage: Pages {
    /// Gives out a page of at least 3 that was not in the map, and which is then there, all zeros: the
    /// first of the chain of free pages, and only where that is empty a new number.
    ///
    /// `PageLimit` comes only where as many pages are given out as the limit allows and the chain is
    /// empty, and carries that number. `Damaged` comes only where the free pages are not in order.
    fn allot(&mut self) -> Result<u64, StageFault>
        ensures ok { IfOk result (λ page. (3 ≤ page) × (page < Self.allotted self.new)
            × (IsTrue (Self.tells self.old)
            → (Self.map self.old page ≡ None) × (Self.map self.new ≡ put_page (Self.map self.old) page blank_bytes))) }
        ensures chain { IfOk result (λ page. IsTrue (Self.tells self.old) → Self.free_in_order self.old
            → TakesFirst (Self.chain self.old) page (Self.chain self.new) (Self.allotted self.old) (Self.allotted self.new)) }
        ensures err { OnErr result (IsTrue (Self.tells self.old) → Self.map self.new ≡ Self.map self.old) }
        ensures damaged { (p : ℕ) → result ≡ Err (StageFault.Damaged p)
            → IsTrue (Self.tells self.old) → ¬ Self.free_in_order self.old }
        ensures page_limit { (n : ℕ) → result ≡ Err (StageFault.PageLimit n)
            → IsTrue (Self.tells self.old) → Self.chain self.old ≡ [] }

        ensures chain_err { OnErr result (IsTrue (Self.tells self.old) → Self.chain self.new ≡ Self.chain self.old) }
        ensures allotted_err { OnErr result (Self.allotted self.new ≡ Self.allotted self.old) }
        ensures changes { Changes Self.Pages 1 self.old self.new result };

    /// Overwrites a page that is in the map. Its first byte is not 9, the kind of a free page.
    ///
    /// `Damaged` carries this page, and comes only where it is not in the map. `PageLimit` never comes.
    fn put(&mut self, page: u64, buf: &Page) -> Result<(), StageFault>
        requires in_map { IsTrue (Self.tells self.old) → IsSome (Self.map self.old page) }
        requires kind { slice_index buf.now 0 ≢ 9 }
        ensures ok { OnOk result (IsTrue (Self.tells self.old) → Self.map self.new ≡ put_page (Self.map self.old) page buf.now) }
        ensures err { OnErr result (IsTrue (Self.tells self.old) → Self.map self.new ≡ Self.map self.old) }
        ensures damaged { (p : ℕ) → result ≡ Err (StageFault.Damaged p)
            → (p ≡ page) × (IsTrue (Self.tells self.old) → Self.map self.old page ≡ None) }

        ensures chain { IsTrue (Self.tells self.old) → Self.chain self.new ≡ Self.chain self.old }
        ensures changes { Changes Self.Pages 0 self.old self.new result };

    /// Takes a page out of the map, and puts it first in the chain of free pages.
    ///
    /// `Damaged` carries this page, and comes only where it is not in the map. `PageLimit` never comes.
    fn free(&mut self, page: u64) -> Result<(), StageFault>
        requires in_map { IsTrue (Self.tells self.old) → IsSome (Self.map self.old page) }
        ensures ok { OnOk result (IsTrue (Self.tells self.old) → Self.map self.new ≡ remove_page (Self.map self.old) page) }
        ensures err { OnErr result (IsTrue (Self.tells self.old) → Self.map self.new ≡ Self.map self.old) }
        ensures damaged { (p : ℕ) → result ≡ Err (StageFault.Damaged p)
            → (p ≡ page) × (IsTrue (Self.tells self.old) → Self.map self.old page ≡ None) }

        ensures chain { OnOk result (IsTrue (Self.tells self.old) → Self.free_in_order self.old
            → Self.chain self.new ≡ page ∷ Self.chain self.old) }
        ensures chain_err { OnErr result (IsTrue (Self.tells self.old) → Self.chain self.new ≡ Self.chain self.old) }
        ensures changes { Changes Self.Pages 0 self.old self.new result };

    /// No page of the map is at or past the number of pages that are given out.
    ghost below_allotted: { (stage : Self) (page : ℕ) (bytes : List ℕ) → IsTrue (Self.tells stage)
        → Self.map stage page ≡ Some bytes → page < Self.allotted stage };

    /// No page of the map is below 3.
    ghost from_three: { (stage : Self) (page : ℕ) (bytes : List ℕ) → IsTrue (Self.tells stage)
        → Self.map stage page ≡ Some bytes → 3 ≤ page };

    ghost within_limit: { (stage : Self) → Self.allotted stage ≤ Self.limit stage };

    ghost limit_fits: { (stage : Self) → Self.limit stage ≤ 4294967295 };
}
