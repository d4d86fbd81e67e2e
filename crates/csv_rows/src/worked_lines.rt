// Lines worked through: each function's contract is a fact that the definition of `input` computes.

ghost use Rattle.csv_rows.specs.WorkedLines.{AddsSpell, BadBoxes, BadFields, BadNumbers, BadRows, CoefficientsSpell, LongLinesAreBad, QueriesSpell, SessionRowsSpell, SignedNumbersSpell};

/// An add, with quotes or leading zeros or without.
pub fn adds_spell()
    ensures { AddsSpell }
{}

/// A move, a withdrawal, a commit and a drop.
pub fn session_rows_spell()
    ensures { SessionRowsSpell }
{}

/// Queries of each kind, at a version and at the last one.
pub fn queries_spell()
    ensures { QueriesSpell }
{}

/// Signed coordinates and weights.
pub fn signed_numbers_spell()
    ensures { SignedNumbersSpell }
{}

/// Two dimensions and coefficients.
pub fn coefficients_spell()
    ensures { CoefficientsSpell }
{}

/// Fields that are no number of their kind.
pub fn bad_numbers()
    ensures { BadNumbers }
{}

/// Boxes with ends in the wrong order or out of range.
pub fn bad_boxes()
    ensures { BadBoxes }
{}

/// Words and numbers of fields that no row has.
pub fn bad_rows()
    ensures { BadRows }
{}

/// Fields with quotes or carriage returns where none may be.
pub fn bad_fields()
    ensures { BadFields }
{}

/// Lines of more than 4096 bytes.
pub fn long_lines_are_bad()
    ensures { LongLinesAreBad }
{}
