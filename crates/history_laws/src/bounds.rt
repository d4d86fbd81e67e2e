//! How great the answers of a history can be.
ghost use Rattle.history_laws.specs.Bounds.{CountsAreBounded, IntegralsAreBounded, LawfulHasRoom, SumsAreBounded};

/// No answer is greater than what all changes of the history bring.
pub fn answers_are_bounded()
    ensures sums { SumsAreBounded }
    ensures counts { CountsAreBounded }
    ensures integrals { IntegralsAreBounded }
{}

/// A lawful history has no more events than its params allow, and less mass than `2^126`.
pub fn lawful_histories_have_room()
    ensures { LawfulHasRoom }
{}
