//! Whole lines worked through: each function's contract is a fact that the definitions compute.
ghost use Rattle.grid_report.specs.Worked.{BadGridsAreNotRead, CellsBelowZero, LargestGridsAreRead, LastIndexRunsFastest, LinesAreAnswered, SquareOverTheGrid, SquaresOverCells};

/// The integrals of a square over cells, one of which lies past the object.
pub fn squares_over_cells()
    ensures { SquaresOverCells }
{}

/// The integral of a square over a whole grid.
pub fn square_over_the_grid()
    ensures { SquareOverTheGrid }
{}

/// The order of the cells in the replies, and that of the fields of the row.
pub fn last_index_runs_fastest()
    ensures { LastIndexRunsFastest }
{}

/// A past version, one that is not there yet, and a bad line.
pub fn lines_are_answered()
    ensures { LinesAreAnswered }
{}

/// Grids with the most corners, and with last lines at the greatest coordinates.
pub fn largest_grids_are_read()
    ensures { LargestGridsAreRead }
{}

/// Each way in which a line is bad.
pub fn bad_grids_are_not_read()
    ensures { BadGridsAreNotRead }
{}

/// Signed coordinates, on both sides of 0.
pub fn cells_below_zero()
    ensures { CellsBelowZero }
{}
