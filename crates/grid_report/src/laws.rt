//! The law of the cells of a grid: the function here does nothing, and its contract is the law.
ghost use Rattle.grid_report.specs.CellsAddUp.{CellsAddUp};

/// The integrals over the cells of a grid add up to the integral over the box that the cells fill, from the first line to the last one in
/// each dimension.
pub fn cells_add_up()
    ensures { CellsAddUp }
{}
