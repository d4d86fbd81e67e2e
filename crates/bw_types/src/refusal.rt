//! Why a batch is refused, and where.
ghost use Rattle.std.specs.Prelude.{◌≡◌};
ghost use Rattle.bw_types.specs.Refusals.{reason_number};

/// Why a batch is refused.
#[derive(Clone, Copy, PartialEq, Eq, Debug)]
pub enum Reason {
    /// An add of an id that is live.
    Used = 1,
    /// A withdrawal or a move of an id that was never added.
    Unknown = 2,
    /// A withdrawal or a move of an id that an earlier row of the same batch added.
    Fresh = 3,
    /// A withdrawal or a move of an id that is not live any more.
    Gone = 4,
    /// The masses of all objects ever added would reach `2^126`.
    Mass = 5,
    /// The batch would pass the limit on events.
    Events = 6,
}

impl Reason {
    /// The number of the reason, from 1 to 6.
    pub fn number(self) -> u8
        ensures { result ≡ reason_number self }
    {
        self as u8
    }
}

/// The first refusal of a batch: the place of its row, counted from 1, or 0 where the whole batch is
/// refused for its events.
#[derive(Clone, Copy, PartialEq, Eq, Debug)]
pub struct Refusal {
    pub place: u32,
    pub reason: Reason,
}
