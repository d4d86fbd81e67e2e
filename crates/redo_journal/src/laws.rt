//! What follows of the pages that a disk stands for.
ghost use Rattle.redo_journal.specs.Settled.{ArmedSettles, BreaksAtOne, IdleSettles, NeverHoldsAndBreaks, SettlesToOne};

use page_layout::{JournalHead, Spelled};

/// Proves laws of what a disk stands for; it does nothing when it runs.
pub fn settling_laws()
    // A disk stands for one list of pages.
    ensures one { SettlesToOne }
    // An idle disk stands for its Pages area.
    ensures idle { IdleSettles }
    // A disk whose open journal holds images stands for some pages.
    ensures armed { ArmedSettles }
    // No journal both holds images and breaks its rules.
    ensures apart { NeverHoldsAndBreaks }
    // A journal first breaks its rules at one page.
    ensures first { BreaksAtOne }
{
    JournalHead::one_spelling();
}
