//! Which grids keep the rules.
ghost use Rattle.std.specs.Prelude.{◌≡◌, ◌+◌, ◌<◌, ◌≤◌, ◌&&◌, nat_le, slice_index};
ghost use Rattle.bw_types.specs.Fits.{IsInRange, greatest_number as greatest_stored};
ghost use Rattle.bw_types.specs.Tally.{each_below};
ghost use Rattle.grid_report.specs.Grids.{grid_corners, grid_fits as fits_grid, line_at, most_corners};

use crate::Grid;
use bw_types::Params;

/// The most corners of a grid.
const MOST_CORNERS: u64 = 4096;

/// Whether the grid keeps the rules of a warehouse with these params: there is a degree, in each dimension there is a step and a cell at
/// least, the last line is in range, and the corners are at most 4096.
pub fn grid_fits(params: &Params, grid: &Grid) -> bool
    requires { IsInRange params.now }
    ensures { result ≡ fits_grid params.now grid.now }
{
    params.degree.is_some() && lines_fit(params, grid) && corners_fit(params, grid)
}

// Whether each dimension has a step and a cell at least, and its last line in range.
fn lines_fit(params: &Params, grid: &Grid) -> bool
    requires { IsInRange params.now }
    ensures { result ≡ each_below params.now.dims (λ i. nat_le 1 (slice_index grid.now.step i) && nat_le 1 (slice_index grid.now.cells i) && nat_le (line_at grid.now i (slice_index grid.now.cells i)) (greatest_stored params.now)) }
{
    for i in 0..usize::from(params.dims) {
        if !dimension_fits(params, grid, i) {
            return false;
        }
    }
    true
}

// Whether this dimension does.
fn dimension_fits(params: &Params, grid: &Grid, i: usize) -> bool
    requires { i < 3 }
    ensures { result ≡ (nat_le 1 (slice_index grid.now.step i) && nat_le 1 (slice_index grid.now.cells i) && nat_le (line_at grid.now i (slice_index grid.now.cells i)) (greatest_stored params.now)) }
{
    grid.step[i] >= 1
        && grid.cells[i] >= 1
        && last_line(grid, i) <= u64::from(greatest_number(params))
}

// Where the last line stands: it may pass 32 bits.
fn last_line(grid: &Grid, i: usize) -> u64
    requires { i < 3 }
    ensures { result ≡ line_at grid.now i (slice_index grid.now.cells i) }
{
    u64::from(grid.low[i]) + u64::from(grid.step[i]) * u64::from(grid.cells[i])
}

// Whether the corners are not too many. Their count passes 64 bits only if it is not cut off as soon as they are.
fn corners_fit(params: &Params, grid: &Grid) -> bool
    requires { IsInRange params.now }
    ensures { result ≡ nat_le (grid_corners params.now grid.now) most_corners }
{
    let mut corners = 1u64;
    for i in 0..usize::from(params.dims) {
        corners *= u64::from(grid.cells[i]) + 1;
        if corners > MOST_CORNERS {
            return false;
        }
    }
    true
}

fn greatest_number(params: &Params) -> u32
    ensures { result ≡ greatest_stored params.now }
{
    if params.origin == 0 {
        4294967294
    } else {
        4294967293
    }
}
