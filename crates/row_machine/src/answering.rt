//! Answering an input from what no line changes: line after line is read and replied.
ghost use Rattle.std.specs.Prelude.{◌≡◌, ◌≢◌, ℕ, ◌+◌, ◌≤◌, ◌++◌, List, OnOk, OnErr, Err};
ghost use Rattle.ports.specs.Count.{Rose};

mod running;

pub use running::answer_lines;
use std::alloc::Global;

/// Why a line was not answered.
#[derive(Clone, Copy, PartialEq, Eq, Debug)]
pub enum RespondFault {
    /// The device that the answers are read from failed.
    Disk,
    /// This page of it is not as the program leaves it.
    Damaged(u64),
    /// There was no memory.
    NoMemory,
}

/// Answers lines one by one, from something that no line changes.
pub trait Responder {
    /// What the answers tell of.
    ghost Facts: { Type 0 };

    /// It answers by these facts.
    ghost stands: { Self → Facts → Type 0 };

    /// The replies to the line that has a number, each with the line feed that ends it.
    ghost reply: { Facts → ℕ → List ℕ → List ℕ };

    /// The most reads that a line asks for.
    ghost cost: { Facts → List ℕ → ℕ };

    /// How often a page was read, and how often the device failed.
    ghost reads: { Self → ℕ };

    ghost faults: { Self → ℕ };

    /// From the first to the second nothing was changed.
    ghost as_before: { Self → Self → Type 0 };

    /// Puts the replies to a line, which has this number, behind those that are there.
    ///
    /// What stands in `ahead` changes no answer: where the lines that come next stand there, they may be read sooner.
    ///
    /// # Errors
    /// None of the replies is put then. `Disk` comes only where the faults rose in this call, or stand at their last value, `Damaged` only where
    /// it answers by no facts.
    fn respond(
        &mut self,
        alloc: Global,
        number: u64,
        line: &[u8],
        ahead: &[u8],
        replies: &mut Vec<u8>,
    ) -> Result<(), RespondFault>
        ensures replies { OnOk result ((facts : Facts) → stands self.old facts → replies.new.items ≡ replies.old.items ++ reply facts number line.now) }
        ensures unsaid { OnErr result (replies.new.items ≡ replies.old.items) }
        ensures kept { as_before self.old self.new }
        ensures sound { (facts : Facts) (page : ℕ) → stands self.old facts → result ≢ Err (RespondFault.Damaged page) }
        ensures reads { (facts : Facts) → stands self.old facts → reads self.new ≤ reads self.old + cost facts line.now }
        ensures disk { result ≡ Err RespondFault.Disk → Rose (faults self.old) (faults self.new) }
        ensures faults { faults self.old ≤ faults self.new };

    /// Proves the laws of answering; it does nothing when it runs.
    fn respond_laws()
        ensures same { (now : Self) → as_before now now }
        ensures twice { (first next last : Self) → as_before first next → as_before next last → as_before first last }
        ensures stands { (old new : Self) (facts : Facts) → stands old facts → as_before old new → stands new facts };
}
