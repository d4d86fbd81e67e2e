//! The entries of a history when a change more is made.
ghost use Rattle.history_laws.specs.Entering.{EntriesAreChanges, EntriesGrowByAdd, EntriesGrowByEnd};

use crate::lives_are_alone;

/// A life more is one entry more, and so is the end of a life.
pub fn entries_grow()
    ensures add { EntriesGrowByAdd }
    ensures end { EntriesGrowByEnd }
{}

/// A lawful history has as many entries as adds and withdrawals.
pub fn entries_are_changes()
    ensures { EntriesAreChanges }
{
    lives_are_alone();
}
