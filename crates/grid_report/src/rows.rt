//! Rows that ask for grids, read from lines.
ghost use Rattle.std.specs.Prelude.{◌≡◌, ◌<◌, ◌≤◌, IfOk, IfSome, IsTrue, Ok, None, length};
ghost use Rattle.bw_types.specs.Fits.{IsInRange};
ghost use Rattle.csv_rows.specs.Input.{stored_of};
ghost use Rattle.grid_report.specs.Grids.{grid_fits as fits_grid};
ghost use Rattle.grid_report.specs.GridRows.{extent_of, grid_of as grid_in, grid_row, thirds_at};

use crate::fits::grid_fits;
use crate::{Grid, GridRow};
use bw_types::Params;
use csv_rows::{Fields, NoMemory, RowReader, number, stored, version};
use std::alloc::Global;

/// Reads a line as a row that asks for a grid: `grid,V,l1,s1,k1,..`.
///
/// None exactly where the line is bad: where it has no fields, another number of them, another word, a field of another form or out of its
/// range, or where the grid breaks the rules of [`crate::grid`].
///
/// What stands in `ahead` changes no answer. Where it begins with the lines that are read next, they are read by the same reader.
pub fn read_grid(
    rows: &mut RowReader,
    alloc: Global,
    line: &[u8],
    ahead: &[u8],
    params: &Params,
) -> Result<Option<GridRow>, NoMemory>
    requires { IsInRange params.now }
    ensures read { IfOk result (λ read. read ≡ grid_row params.now line.now) }
    ensures fits { IfOk result (λ read. IfSome read (λ row. IsTrue (fits_grid params.now row.grid))) }
{
    match rows.read_fields(alloc, line, ahead)? {
        None => Ok(None),
        Some(fields) => Ok(grid_of(params, &fields)),
    }
}

// What fields spell: the word, the version, and for each dimension the low end, the step and the number of cells.
fn grid_of(params: &Params, fields: &Fields) -> Option<GridRow>
    requires { IsInRange params.now }
    ensures value { result ≡ grid_in params.now fields.now }
    ensures fits { IfSome result (λ row. IsTrue (fits_grid params.now row.grid)) }
{
    if fields.at(0) != b"grid".as_slice() {
        return None;
    }
    if fields.len() != 2 + 3 * usize::from(params.dims) {
        return None;
    }
    let version = version(fields.at(1))?;
    let low = lows_at(params, fields, 2)?;
    let step = extents_at(params, fields, 3)?;
    let cells = extents_at(params, fields, 4)?;
    let grid = Grid { low, step, cells };
    if grid_fits(params, &grid) {
        Some(GridRow { version, grid })
    } else {
        None
    }
}

// The stored numbers of which the first is the field at a place, one for each dimension.
fn lows_at(params: &Params, fields: &Fields, place: usize) -> Option<[u32; 3]>
    requires in_range { IsInRange params.now }
    requires near { place ≤ 4 }
    ensures { result ≡ thirds_at params.now fields.now place (stored_of params.now) }
{
    let mut lows = [0; 3];
    for i in 0..usize::from(params.dims) {
        lows[i] = stored(params, fields.at(place + 3 * i))?;
    }
    Some(lows)
}

// The steps, or the numbers of cells, of which the first is the field at a place.
fn extents_at(params: &Params, fields: &Fields, place: usize) -> Option<[u32; 3]>
    requires in_range { IsInRange params.now }
    requires near { place ≤ 4 }
    ensures { result ≡ thirds_at params.now fields.now place extent_of }
{
    let mut extents = [0; 3];
    for i in 0..usize::from(params.dims) {
        extents[i] = extent(fields.at(place + 3 * i))?;
    }
    Some(extents)
}

// The step or the number of cells that a field spells.
fn extent(field: &[u8]) -> Option<u32>
    ensures { result ≡ extent_of field.now }
{
    let extent = number(field, u64::from(u32::MAX))?;
    Some(extent as u32)
}
