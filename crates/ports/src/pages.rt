//! What can be read by pages.
ghost use Rattle.std.specs.Prelude.{◌≡◌, ◌+◌, ◌≤◌, ℕ, Bool, List, Some, None, Err, IsTrue, OnOk};
ghost use Rattle.ports.specs.Count.{Rose};
ghost use Rattle.ports.specs.Pages.{PageMap};

use crate::{Page, PageFault};

/// Pages that can be read by their numbers.
pub trait Pages {
    /// Whether the map is told. What it says is claimed only where it is.
    ghost tells: { Self → Bool };

    /// The pages that are there, with their bytes.
    ghost map: { Self → PageMap };

    /// How many gets there were, or reads of the device that they made.
    ghost gets: { Self → ℕ };

    /// How often the device failed.
    ghost faults: { Self → ℕ };

    /// How many page numbers are given out. This and the three after it are of a stage; they stand
    /// here because a get leaves them as they are.
    ghost allotted: { Self → ℕ };

    /// At most how many page numbers there may be.
    ghost limit: { Self → ℕ };

    /// The chain of free pages, the one to be given out next at its front.
    ghost chain: { Self → List ℕ };

    /// The record of the free pages is in order, so that each of the chain can be given out. What the
    /// chain says is claimed only where it is.
    ghost free_in_order: { Self → Type 0 };

    /// What no call changes: where the pages came from.
    ghost Base: { Type 0 };

    /// Of a stage, what stands under it. It stays for as long as the stage does.
    ghost base: { Self → Base };

    /// Reads a page into `buf`, and changes nothing but the two counts.
    ///
    /// `Damaged` carries this page. It comes exactly where the page is not in the map, save where
    /// the device failed first.
    fn get(&mut self, page: u64, buf: &mut Page) -> Result<(), PageFault>
        ensures bytes { OnOk result (IsTrue (tells self.old) → map self.old page ≡ Some buf.new) }
        ensures disk { result ≡ Err PageFault.Disk → Rose (faults self.old) (faults self.new) }
        ensures damaged { (p : ℕ) → result ≡ Err (PageFault.Damaged p)
            → (p ≡ page) × (IsTrue (tells self.old) → map self.old page ≡ None) }

        ensures at_most_one { gets self.new ≤ gets self.old + 1 }
        ensures gets { gets self.old ≤ gets self.new }
        ensures faults { faults self.old ≤ faults self.new }

        ensures tells { tells self.new ≡ tells self.old }
        ensures map { map self.new ≡ map self.old }
        ensures base { base self.new ≡ base self.old }
        ensures allotted { allotted self.new ≡ allotted self.old }
        ensures limit { limit self.new ≡ limit self.old }
        ensures chain { chain self.new ≡ chain self.old }
        ensures free_in_order { free_in_order self.old → free_in_order self.new };
}
