//! The values of a grid's cells, from the residues below all its corners.
ghost use Rattle.std.specs.Prelude.{◌≡◌, ℕ, ◌+◌, ◌<◌, ◌≤◌, ◌^◌, IfOk, IsTrue, List, length, map, slice_index, take};
ghost use Rattle.bw_types.specs.Fits.{IsInRange};
ghost use Rattle.bw_types.specs.Residues.{signed_of};
ghost use Rattle.bw_types.specs.Tally.{product_below};
ghost use Rattle.corner_weights.specs.Sums.{residue_sum_below};
ghost use Rattle.corner_weights.specs.Subsets.{residue_signed_by};
ghost use Rattle.grid_report.specs.Corners.{corner_at, corner_line, corners_of, value_by_corners};
ghost use Rattle.grid_report.specs.Grids.{cells_of, grid_corners, grid_fits};
ghost use Rattle.grid_report.specs.Indexes.{number_of};

use crate::Grid;
use crate::indexes::{element_count, indexes};
use bw_types::{Params, res_add, res_signed};
use corner_weights::{is_in_subset, sign};
use std::alloc::{AllocError, Global};

/// The value of each cell: the signed sum of the residues at its corners. The residues stand in the order of the corners.
pub(crate) fn cell_values(
    alloc: Global,
    params: &Params,
    grid: &Grid,
    corners: &[u128],
) -> Result<Vec<i128>, AllocError>
    requires in_range { IsInRange params.now }
    requires fits { IsTrue (grid_fits params.now grid.now) }
    requires all { length corners.now ≡ grid_corners params.now grid.now }
    ensures { IfOk result (λ values. (below : List ℕ → ℕ) → corners.now ≡ map (λ ks. below (corner_at params.now grid.now ks)) (corners_of params.now grid.now)
        → values.items ≡ map (value_by_corners below params.now grid.now) (cells_of params.now grid.now)) }
{
    let lines = line_counts(params, grid);
    let mut values = Vec::new(alloc);
    for number in 0..element_count(params.dims, &grid.cells) as u64 {
        let cell = indexes(params.dims, &grid.cells, number);
        values.push(cell_value(params.dims, &lines, &cell, corners))?;
    }
    Ok(values)
}

/// How many lines there are in each dimension: one more than cells.
pub(crate) fn line_counts(params: &Params, grid: &Grid) -> [u32; 3]
    requires in_range { IsInRange params.now }
    requires fits { IsTrue (grid_fits params.now grid.now) }
    ensures { take params.now.dims result ≡ map (λ n. n + 1) (take params.now.dims grid.now.cells) }
{
    let mut lines = [0; 3];
    for i in 0..usize::from(params.dims) {
        lines[i] = grid.cells[i] + 1;
    }
    lines
}

// The value of a cell.
fn cell_value(dims: u8, lines: &[u32; 3], cell: &[u32; 3], corners: &[u128]) -> i128
    requires dims { dims ≤ 3 }
    requires within { (i : ℕ) → i < dims → slice_index cell.now i + 1 < slice_index lines.now i }
    requires all { length corners.now ≡ product_below dims (λ i. slice_index lines.now i) }
    ensures { result ≡ signed_of (residue_sum_below (2 ^ dims) (λ subset. residue_signed_by subset (slice_index corners.now (number_of dims (λ i. slice_index lines.now i) (λ i. corner_line subset i (slice_index cell.now i)))))) }
{
    let mut total = 0;
    for subset in 0..subset_count(dims) {
        let corner = corners[corner_number(dims, lines, cell, subset)];
        total = res_add(total, sign(subset, corner));
    }
    res_signed(total)
}

// How many subsets the dimensions have.
fn subset_count(dims: u8) -> u8
    requires { dims ≤ 3 }
    ensures { result ≡ 2 ^ dims }
{
    1 << dims
}

// The number of the cell's corner of the subset.
fn corner_number(dims: u8, lines: &[u32; 3], cell: &[u32; 3], subset: u8) -> usize
    requires dims { dims ≤ 3 }
    requires within { (i : ℕ) → i < dims → slice_index cell.now i + 1 < slice_index lines.now i }
    requires few { product_below dims (λ i. slice_index lines.now i) < 2 ^ 64 }
    ensures number { result ≡ number_of dims (λ i. slice_index lines.now i) (λ i. corner_line subset i (slice_index cell.now i)) }
    ensures below { result < product_below dims (λ i. slice_index lines.now i) }
{
    let mut number = 0;
    for i in 0..usize::from(dims) {
        number = number * lines[i] as usize + corner_line(subset, i as u8, cell[i]) as usize;
    }
    number
}

// The line of a cell's corner in a dimension: that at its low end in the subset, at its high end elsewhere.
fn corner_line(subset: u8, i: u8, cell: u32) -> u32
    requires dimension { i < 3 }
    requires room { cell + 1 < 2 ^ 32 }
    ensures { result ≡ corner_line subset i cell }
{
    if is_in_subset(i, subset) {
        cell
    } else {
        cell + 1
    }
}
