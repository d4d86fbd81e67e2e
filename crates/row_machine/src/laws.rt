//! What follows from how a run ended, and the laws of what is written and kept.
ghost use Rattle.row_machine.specs.Ended.{AfterGoesOn, AfterJoins, AllMayBeServed, EndsInPart, EndsWithinAll, FineServesAll, FineSettles, HoldsAcknowledged, InputServesWhole, LinesGoOn, SilentLinesKeep, TextJoins};

use line_reader::lines_join;
use warehouse::House;

/// Proves what follows from the way in which `serve` says that a run ended; it does nothing when it runs.
pub fn ends_laws<H: House>()
    ensures part { EndsInPart ⟦<H as House>⟧ }
    ensures fine { FineServesAll ⟦<H as House>⟧ }
    ensures input { InputServesWhole ⟦<H as House>⟧ }
    ensures settles { FineSettles ⟦<H as House>⟧ }
    ensures acknowledged { HoldsAcknowledged ⟦<H as House>⟧ }
    ensures within { EndsWithinAll ⟦<H as House>⟧ }
{}

/// Proves that all lines may be served, that a history only goes on, by lines with replies alone, and that inputs join at a line's end; it does nothing when it runs.
pub fn machine_laws()
    ensures may { AllMayBeServed }
    ensures goes_on { AfterGoesOn }
    ensures lines_go_on { LinesGoOn }
    ensures silent { SilentLinesKeep }
    ensures text { TextJoins }
    ensures after { AfterJoins }
{
    lines_join();
}
