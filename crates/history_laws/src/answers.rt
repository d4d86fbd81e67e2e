//! The answers of a history as sums over its entries.
ghost use Rattle.history_laws.specs.Answers.{CountByEntries, EntriesCountLive, IntegralByEntries, SumByEntries};

use crate::lives_tell_live_objects;

/// The sums, counts and integrals of a history are those of its entries, each with its sign.
pub fn entries_give_answers()
    ensures live { EntriesCountLive }
    ensures sum { SumByEntries }
    ensures count { CountByEntries }
    ensures integral { IntegralByEntries }
{
    lives_tell_live_objects();
}
