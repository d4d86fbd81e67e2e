//! The two traits, and their one failure.
ghost use Rattle.std.specs.Prelude.{◌≡◌, ℕ, ◌<◌, ◌≤◌, List, [], ◌++◌, Bool, IsTrue, length, take, IfOk, OnOk, OnErr};
ghost use Rattle.ports.specs.Count.{Rose};

/// A source or a sink has failed.
#[derive(Clone, Copy, Debug, PartialEq, Eq)]
pub struct Failed;

/// Gives bytes, piece by piece, up to an end.
pub trait Source {
    // Whether the source tells what it has left.
    ghost tells: { Self → Bool };

    // The bytes that have not been taken yet, in order, where the source tells them.
    ghost left: { Self → List ℕ };

    // How often the source has failed. The count never falls, and stands still at 2^64 - 1.
    ghost faults: { Self → ℕ };

    /// Puts the next bytes at the front of `buf`, and answers how many they are. 0 means the end.
    ///
    /// # Errors
    /// [`Failed`] only where the faults rose in this call, or stand at their last value. A source
    /// that tells after it failed has lost nothing. It may tell no more.
    fn take(&mut self, buf: &mut [u8]) -> Result<usize, Failed>
        requires { 0 < length buf.old }

        ensures bound { IfOk result (λ n. n ≤ length buf.new) }
        ensures still_tells { OnOk result (IsTrue (tells self.old) → IsTrue (tells self.new)) }
        ensures taken { IfOk result (λ n.
            IsTrue (tells self.old) → left self.old ≡ take n buf.new ++ left self.new) }
        ensures end { IfOk result (λ n. n ≡ 0 → IsTrue (tells self.old) → left self.old ≡ []) }

        ensures lost_nothing { OnErr result
            (IsTrue (tells self.old) → IsTrue (tells self.new) → left self.new ≡ left self.old) }

        ensures failed_only { OnErr result (Rose (faults self.old) (faults self.new)) }
        ensures no_fault { OnOk result (faults self.new ≡ faults self.old) }
        ensures never_falls { faults self.old ≤ faults self.new };
}

/// Takes bytes, piece by piece.
pub trait Sink {
    // Whether the sink tells what it has written.
    ghost tells: { Self → Bool };

    // The bytes that have been written, in order, where the sink tells them.
    ghost written: { Self → List ℕ };

    // How often the sink has failed. The count never falls, and stands still at 2^64 - 1.
    ghost faults: { Self → ℕ };

    /// Writes the whole of `piece` after what has been written.
    ///
    /// # Errors
    /// [`Failed`] only where the faults rose in this call, or stand at their last value. A prefix of
    /// the piece has been written then: none of it, a part or all. The sink may tell no more.
    fn put(&mut self, piece: &[u8]) -> Result<(), Failed>
        ensures still_tells { OnOk result (IsTrue (tells self.old) → IsTrue (tells self.new)) }
        ensures appended { OnOk result
            (IsTrue (tells self.old) → written self.new ≡ written self.old ++ piece.now) }

        ensures prefix { OnErr result (IsTrue (tells self.old) → IsTrue (tells self.new) →
            ((n : ℕ) × (n ≤ length piece.now) × (written self.new ≡ written self.old ++ take n piece.now))) }

        ensures failed_only { OnErr result (Rose (faults self.old) (faults self.new)) }
        ensures no_fault { OnOk result (faults self.new ≡ faults self.old) }
        ensures never_falls { faults self.old ≤ faults self.new };
}
