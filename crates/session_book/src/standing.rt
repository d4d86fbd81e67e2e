ghost use Rattle.std.specs.Prelude.{◌≡◌};
ghost use Rattle.session_book.specs.Standing.{refusal_to_add, refusal_to_withdraw};

use bw_types::Reason;

/// How an id stands for the next row of a batch.
#[derive(Clone, Copy, PartialEq, Eq, Debug)]
pub enum Standing {
    /// It was never added.
    Never,
    /// It was withdrawn since its last add.
    Withdrawn,
    /// It is live, and no earlier row of the batch added it.
    Live,
    /// It is live, and an earlier row of the batch added it.
    Fresh,
}

impl Standing {
    ghost use Rattle.session_book.specs.Standing.{refusal_to_add, refusal_to_withdraw};

    /// Why an add of the id is refused, its mass aside.
    pub fn refusal_to_add(self) -> Option<Reason>
        ensures { result ≡ refusal_to_add self }
    {
        match self {
            Standing::Live | Standing::Fresh => Some(Reason::Used),
            Standing::Never | Standing::Withdrawn => None,
        }
    }

    /// Why a withdrawal of the id is refused.
    pub fn refusal_to_withdraw(self) -> Option<Reason>
        ensures { result ≡ refusal_to_withdraw self }
    {
        match self {
            Standing::Fresh => Some(Reason::Fresh),
            Standing::Never => Some(Reason::Unknown),
            Standing::Withdrawn => Some(Reason::Gone),
            Standing::Live => None,
        }
    }
}
