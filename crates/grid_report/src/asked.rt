//! A grid, and a row that asks for one.

/// A grid of cells, in stored numbers. In each dimension its lines stand at `low`, `low + step` and so on to `low + step * cells`, and a cell
/// lies between two lines. Past the dimensions of a warehouse the numbers do not count.
#[derive(Clone, Copy, PartialEq, Eq, Debug)]
pub struct Grid {
    pub low: [u32; 3],
    pub step: [u32; 3],
    pub cells: [u32; 3],
}

/// A row that asks for a grid at a version, or at the last one where none is given: `now`.
#[derive(Clone, Copy, PartialEq, Eq, Debug)]
pub struct GridRow {
    pub version: Option<u32>,
    pub grid: Grid,
}
