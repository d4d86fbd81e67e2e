// Whole inputs worked through: each function's contract is a fact that the definitions compute.

ghost use Rattle.csv_rows.specs.Worked.{TouchingBoxesCount, PastVersionsStay, BadLinesAreAnswered, SquareIsIntegrated, PlaneIsIntegrated, IdsAreRefused, QuotesAreRead, SignedLineIsIntegrated, LivesFollowOneAnother};

/// Two boxes that touch at 5, and the weight that touches 5.
pub fn touching_boxes_count()
    ensures { TouchingBoxesCount }
{}

/// A withdrawal leaves past versions as they were.
pub fn past_versions_stay()
    ensures { PastVersionsStay }
{}

/// Lines that are bad, each for a reason of its own, and a commit after them.
pub fn bad_lines_are_answered()
    ensures { BadLinesAreAnswered }
{}

/// The integral of a square, 2 * (8 - 1).
pub fn square_is_integrated()
    ensures { SquareIsIntegrated }
{}

/// The integral of a product of two coordinates, 3 * (4 - 1) times 3 * 1.
pub fn plane_is_integrated()
    ensures { PlaneIsIntegrated }
{}

/// Each way in which a batch is refused for an id.
pub fn ids_are_refused()
    ensures { IdsAreRefused }
{}

/// Quoted fields, carriage returns, and a last line that does not end.
pub fn quotes_are_read()
    ensures { QuotesAreRead }
{}

/// Signed coordinates, on both sides of 0.
pub fn signed_line_is_integrated()
    ensures { SignedLineIsIntegrated }
{}

/// A move, a withdrawal and a new life of one id, and its refusals.
pub fn lives_follow_one_another()
    ensures { LivesFollowOneAnother }
{}
