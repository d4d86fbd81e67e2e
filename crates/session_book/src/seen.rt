ghost use Rattle.std.specs.Prelude.{◌≡◌, ℕ, ◌≤◌, Err, IfOk};
ghost use Rattle.ports.specs.Count.{Rose};
ghost use Rattle.session_book.specs.declared.seen.Life.{Life};

use ports::PageFault;

/// What a history says of an id.
#[derive(Clone, Copy, PartialEq, Eq, Debug)]
pub enum Life {
    /// It was never added.
    Never,
    /// It was added, and not withdrawn since its last add.
    Live,
    /// It was added, and withdrawn since its last add.
    Withdrawn,
}

/// What tells the lives of the ids of a history.
pub trait Seen {
    /// The lives are told: those of a sound table, say. What they are is claimed only where they are.
    ghost tells: { Self → Type 0 };

    /// What is told of an id.
    ghost life_of: { Self → ℕ → Life };

    /// How often the device below failed.
    ghost faults: { Self → ℕ };

    /// On which pages a call may answer `Damaged`.
    ghost may_blame: { Self → ℕ → Type 0 };

    /// What no call changes, besides what is told.
    ghost stays: { Self → Self → Type 0 };

    /// The life of this id.
    ///
    /// `Disk` comes only where the count of faults rose. `Damaged` comes only for a page that may be
    /// blamed, and where the lives are told only where the count of faults rose.
    fn life(&mut self, id: u64) -> Result<Life, PageFault>
        ensures ok { IfOk result (λ life. tells self.old → life ≡ life_of self.old id) }
        ensures disk { result ≡ Err PageFault.Disk → Rose (faults self.old) (faults self.new) }
        ensures damaged { (page : ℕ) → result ≡ Err (PageFault.Damaged page) → may_blame self.old page }
        ensures damaged_told { (page : ℕ) → result ≡ Err (PageFault.Damaged page)
            → tells self.old → Rose (faults self.old) (faults self.new) }

        ensures faults { faults self.old ≤ faults self.new }
        ensures tells { tells self.old → tells self.new }
        ensures life_of { life_of self.new ≡ life_of self.old }
        ensures may_blame { (page : ℕ) → may_blame self.new page → may_blame self.old page }
        ensures stays { stays self.old self.new };

    ghost stays_alone: { (s : Self) → stays s s };

    ghost stays_on: { (s t u : Self) → stays s t → stays t u → stays s u };
}
