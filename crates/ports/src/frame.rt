//! The laws by which longer changes are made of shorter ones.
ghost use Rattle.ports.specs.Frame.{ApartPagesStay, ChangesCompose, ChangesStandBeside};

/// Proves the laws of `Replaces`, the frame of a change; it does nothing when it runs.
pub fn changes_compose()
    ensures in_turn { ChangesCompose }
    ensures beside { ChangesStandBeside }
    ensures apart { ApartPagesStay }
{}
