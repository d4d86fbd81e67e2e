//! The stage, and which of its calls fails.
ghost use Rattle.std.specs.Prelude.{◌≡◌, ◌≢◌, ◌+◌, ◌-◌, ◌≤◌, ◌<◌, ◌↔◌, ◌∷◌, [], ℕ, Some, None, Err, IsTrue, IsSome, IfOk, OnOk, OnErr, slice_index};
ghost use Rattle.ports.specs.Calls.{Changes, OnlyReads};
ghost use Rattle.ports.specs.Chain.{TakesFirst};
ghost use Rattle.ports.specs.Pages.{put_page, remove_page, blank_bytes};
ghost use Rattle.ports.specs.Failing.{Counts, Fails};

use crate::{Page, PageFault, Pages, Stage, StageFault, raised};

/// A stage over another, of which one call fails: the one that comes after so many. An allotment fails for want of memory,
/// each other call for the disk. The call that fails does not come to the stage below, and those after it do again.
#[derive(Drop)]
pub struct FailingStage<S: Stage + Drop> {
    /// The stage below.
    pub stage: S,
    /// How many calls there are before the one that fails.
    pub calls_left: u64,
    /// How many calls failed for the disk.
    pub faults: u64,
}

impl<S: Stage + Drop> FailingStage<S> {
    /// A stage over this one, which fails at no call that can be counted: set `calls_left` for that.
    pub fn over(stage: S) -> FailingStage<S>
        ensures stage { result.stage ≡ stage }
        ensures calls_left { result.calls_left ≡ 18446744073709551615 }
        ensures faults { result.faults ≡ 0 }
    {
        FailingStage {
            stage,
            calls_left: u64::MAX,
            faults: 0,
        }
    }
}

// Whether this call is the one that fails; it counts the call.
fn fails(calls_left: &mut u64) -> bool
    ensures last { IsTrue result ↔ (calls_left.old ≡ 0) }
    ensures counts { calls_left.old ≢ 0 → calls_left.new ≡ calls_left.old - 1 }
{
    if *calls_left == 0 {
        *calls_left = u64::MAX;
        return true;
    }
    *calls_left -= 1;
    false
}

impl<S: Stage + Drop> Pages for FailingStage<S> {
    ghost tells = { λ f. S.tells f.stage };

    ghost map = { λ f. S.map f.stage };

    ghost gets = { λ f. S.gets f.stage };

    ghost faults = { λ f. S.faults f.stage + f.faults };

    ghost allotted = { λ f. S.allotted f.stage };

    ghost limit = { λ f. S.limit f.stage };

    ghost chain = { λ f. S.chain f.stage };

    ghost free_in_order = { λ f. S.free_in_order f.stage };

    ghost Base = { S.Base };

    ghost base = { λ f. S.base f.stage };

    fn get(&mut self, page: u64, buf: &mut Page) -> Result<(), PageFault>
        ensures fails { self.old.calls_left ≡ 0 → (result ≡ Err PageFault.Disk) × Fails self.old self.new }
        ensures counts { self.old.calls_left ≢ 0 → Counts self.old self.new }
        ensures bytes { OnOk result (IsTrue (S.tells self.old.stage) → S.map self.old.stage page ≡ Some buf.new) }
        ensures damaged { (p : ℕ) → result ≡ Err (PageFault.Damaged p)
            → (p ≡ page) × (IsTrue (S.tells self.old.stage) → S.map self.old.stage page ≡ None) }
        ensures reads { OnlyReads ⟦<FailingStage<S> as Pages>⟧ 1 self.old self.new result }
    {
        if fails(&mut self.calls_left) {
            self.faults = raised(self.faults);
            return Err(PageFault::Disk);
        }
        self.stage.get(page, buf)
    }
}

impl<S: Stage + Drop> Stage for FailingStage<S> {
    ghost below_allotted = { λ f page bytes told there. S.below_allotted f.stage page bytes told there };

    ghost from_three = { λ f page bytes told there. S.from_three f.stage page bytes told there };

    ghost within_limit = { λ f. S.within_limit f.stage };

    ghost limit_fits = { λ f. S.limit_fits f.stage };

    fn allot(&mut self) -> Result<u64, StageFault>
        ensures fails { self.old.calls_left ≡ 0 → (result ≡ Err StageFault.NoMemory) × (self.new.stage ≡ self.old.stage) }
        ensures counts { self.old.calls_left ≢ 0 → Counts self.old self.new }
        ensures ok { IfOk result (λ page. (3 ≤ page) × (page < S.allotted self.new.stage)
            × (IsTrue (S.tells self.old.stage)
            → (S.map self.old.stage page ≡ None) × (S.map self.new.stage ≡ put_page (S.map self.old.stage) page blank_bytes))) }
        ensures chain { IfOk result (λ page. IsTrue (S.tells self.old.stage) → S.free_in_order self.old.stage
            → TakesFirst (S.chain self.old.stage) page (S.chain self.new.stage) (S.allotted self.old.stage) (S.allotted self.new.stage)) }
        ensures err { OnErr result (IsTrue (S.tells self.old.stage) → S.map self.new.stage ≡ S.map self.old.stage) }
        ensures damaged { (p : ℕ) → result ≡ Err (StageFault.Damaged p)
            → IsTrue (S.tells self.old.stage) → ¬ S.free_in_order self.old.stage }
        ensures page_limit { (n : ℕ) → result ≡ Err (StageFault.PageLimit n)
            → IsTrue (S.tells self.old.stage) → S.chain self.old.stage ≡ [] }
        ensures chain_err { OnErr result (IsTrue (S.tells self.old.stage) → S.chain self.new.stage ≡ S.chain self.old.stage) }
        ensures allotted_err { OnErr result (S.allotted self.new.stage ≡ S.allotted self.old.stage) }
        ensures changes { Changes ⟦<FailingStage<S> as Pages>⟧ 1 self.old self.new result }
    {
        if fails(&mut self.calls_left) {
            return Err(StageFault::NoMemory);
        }
        self.stage.allot()
    }

    fn put(&mut self, page: u64, buf: &Page) -> Result<(), StageFault>
        requires in_map { IsTrue (S.tells self.old.stage) → IsSome (S.map self.old.stage page) }
        requires kind { slice_index buf.now 0 ≢ 9 }
        ensures fails { self.old.calls_left ≡ 0 → (result ≡ Err StageFault.Disk) × Fails self.old self.new }
        ensures counts { self.old.calls_left ≢ 0 → Counts self.old self.new }
        ensures ok { OnOk result (IsTrue (S.tells self.old.stage) → S.map self.new.stage ≡ put_page (S.map self.old.stage) page buf.now) }
        ensures err { OnErr result (IsTrue (S.tells self.old.stage) → S.map self.new.stage ≡ S.map self.old.stage) }
        ensures damaged { (p : ℕ) → result ≡ Err (StageFault.Damaged p)
            → (p ≡ page) × (IsTrue (S.tells self.old.stage) → S.map self.old.stage page ≡ None) }
        ensures chain { IsTrue (S.tells self.old.stage) → S.chain self.new.stage ≡ S.chain self.old.stage }
        ensures changes { Changes ⟦<FailingStage<S> as Pages>⟧ 0 self.old self.new result }
    {
        if fails(&mut self.calls_left) {
            self.faults = raised(self.faults);
            return Err(StageFault::Disk);
        }
        self.stage.put(page, buf)
    }

    fn free(&mut self, page: u64) -> Result<(), StageFault>
        requires in_map { IsTrue (S.tells self.old.stage) → IsSome (S.map self.old.stage page) }
        ensures fails { self.old.calls_left ≡ 0 → (result ≡ Err StageFault.Disk) × Fails self.old self.new }
        ensures counts { self.old.calls_left ≢ 0 → Counts self.old self.new }
        ensures ok { OnOk result (IsTrue (S.tells self.old.stage) → S.map self.new.stage ≡ remove_page (S.map self.old.stage) page) }
        ensures err { OnErr result (IsTrue (S.tells self.old.stage) → S.map self.new.stage ≡ S.map self.old.stage) }
        ensures damaged { (p : ℕ) → result ≡ Err (StageFault.Damaged p)
            → (p ≡ page) × (IsTrue (S.tells self.old.stage) → S.map self.old.stage page ≡ None) }
        ensures chain { OnOk result (IsTrue (S.tells self.old.stage) → S.free_in_order self.old.stage
            → S.chain self.new.stage ≡ page ∷ S.chain self.old.stage) }
        ensures chain_err { OnErr result (IsTrue (S.tells self.old.stage) → S.chain self.new.stage ≡ S.chain self.old.stage) }
        ensures changes { Changes ⟦<FailingStage<S> as Pages>⟧ 0 self.old self.new result }
    {
        if fails(&mut self.calls_left) {
            self.faults = raised(self.faults);
            return Err(StageFault::Disk);
        }
        self.stage.free(page)
    }
}
