//! A stage on a space as a stage of pages.
ghost use Rattle.std.specs.Prelude.{◌≡◌, ◌≢◌, ◌⊎◌, ◌+◌, ◌≤◌, ◌<◌, ℕ, List, Some, None, Ok, Err, IsTrue, IsSome, OnOk, OnErr, IfOk};
ghost use Rattle.ports.specs.Calls.{OnlyReads};
ghost use Rattle.ports.specs.Pages.{put_page, remove_page, blank_bytes};
ghost use Rattle.page_space.specs.Begun.{Begun};

use crate::Staged;
use page_disk::Disk;
use ports::{Page, PageFault, Pages, Stage, StageFault};

impl<D: Disk> Pages for Staged<D> {
    ghost use Rattle.page_space.specs.Calls.{KeepsChanges};
    ghost use Rattle.page_space.specs.Shown.{base_of, disk_under, staged_map, staged_chain, IsStagedInOrder};

    ghost tells = { λ staged. D.tells (disk_under staged) };

    ghost map = { λ staged. staged_map staged };

    ghost gets = { λ staged. D.reads (disk_under staged) };

    ghost faults = { λ staged. D.faults (disk_under staged) };

    ghost allotted = { λ staged. staged.meta.allotted };

    ghost limit = { λ staged. staged.space.params.pages };

    ghost chain = { λ staged. staged_chain staged };

    ghost free_in_order = { λ staged. IsStagedInOrder staged };

    ghost Base = { Begun };

    ghost base = { λ staged. base_of staged };

    fn get(&mut self, page: u64, buf: &mut Page) -> Result<(), PageFault>
        ensures bytes { OnOk result (IsTrue (D.tells (disk_under self.old)) → staged_map self.old page ≡ Some buf.new) }
        ensures damaged { (p : ℕ) → result ≡ Err (PageFault.Damaged p)
            → (p ≡ page) × (IsTrue (D.tells (disk_under self.old)) → staged_map self.old page ≡ None) }
        ensures reads { OnlyReads ⟦<Staged<D> as Pages>⟧ 1 self.old self.new result }
        // No image is made.
        ensures keeps { KeepsChanges self.old self.new }
    {
        self.get_page(page, buf)
    }
}

impl<D: Disk> Stage for Staged<D> {
    ghost use Rattle.page_space.specs.InUseLaws.{some_in_use};
    ghost use Rattle.page_space.specs.Shown.{staged_bytes};

    ghost below_allotted = { λ staged page bytes told there. (some_in_use (staged_bytes staged) staged.meta.allotted page bytes there).0.high };

    ghost from_three = { λ staged page bytes told there. (some_in_use (staged_bytes staged) staged.meta.allotted page bytes there).0.low };

    ghost within_limit = { λ staged. staged.few };

    ghost limit_fits = { λ staged. staged.space.most_pages };

    fn allot(&mut self) -> Result<u64, StageFault> {
        self.allot_page()
    }

    fn put(&mut self, page: u64, buf: &Page) -> Result<(), StageFault> {
        self.put_page(page, buf)
    }

    fn free(&mut self, page: u64) -> Result<(), StageFault> {
        self.free_page(page)
    }
}
