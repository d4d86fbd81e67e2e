//! What follows from the definitions of the sample.
ghost use Rattle.sample_rows.specs.Summary.{TotalsAreSmall};

/// Proves that the total of a sample's answers is what it is modulo `2^128`; it does nothing when it runs.
pub fn sample_laws()
    ensures { TotalsAreSmall }
{}
