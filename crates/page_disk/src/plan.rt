//! Which of the calls to come fail.
ghost use Rattle.std.specs.Prelude.{◌≡◌, []};
ghost use Rattle.page_disk.specs.CallPlan.{call_fails, no_failures};
ghost use Rattle.page_disk.specs.MemDisk.{shown_plan};

use std::alloc::Global;

/// The calls of some numbers fail, and all after the last. Both count from 1, after so many calls.
#[derive(Drop)]
pub(crate) struct Plan {
    /// The numbers of the calls that fail.
    pub failing: Vec<u64>,
    /// How many calls came before the first that these numbers count.
    pub failing_from: u64,
    /// The number of the last call that may succeed.
    pub last: Option<u64>,
    /// How many calls came before the first that this number counts.
    pub last_from: u64,
}

impl Plan {
    /// No call fails.
    pub fn none(alloc: Global) -> Plan
        ensures { shown_plan result ≡ no_failures }
    {
        Plan {
            failing: Vec::new(alloc),
            failing_from: 0,
            last: None,
            last_from: 0,
        }
    }

    /// Whether the call of this number fails.
    pub fn fails(&self, call: u64) -> bool
        ensures { result ≡ call_fails (shown_plan self.now) call }
    {
        let number = call.saturating_sub(self.failing_from);
        if self.failing.contains(&number) {
            return true;
        }
        match self.last {
            Some(last) => call.saturating_sub(self.last_from) > last,
            None => false,
        }
    }
}
