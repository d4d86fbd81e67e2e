//! The text of the replies to a row that asks for a grid.
ghost use Rattle.std.specs.Prelude.{◌≡◌, ◌++◌, OnOk, OnErr, codes};
ghost use Rattle.std.specs.Fmt.{decimal};
ghost use Rattle.std.specs.List.{flat_map};
ghost use Rattle.bw_types.specs.Fits.{IsInRange};
ghost use Rattle.grid_report.specs.Grids.{cell_count, cells_of};
ghost use Rattle.grid_report.specs.GridReplies.{cell_text, cells_text, grid_text};

use crate::Grid;
use crate::indexes::{element_count, indexes};
use bw_types::Params;
use csv_rows::NoMemory;
use std::alloc::Global;

/// Puts the line of a grid and the lines of its cells, which have these integrals, behind the replies that are there.
pub(crate) fn put_grid(
    alloc: Global,
    params: &Params,
    grid: &Grid,
    version: u32,
    values: &[i128],
    replies: &mut Vec<u8>,
) -> Result<(), NoMemory>
    requires { IsInRange params.now }
    ensures put { OnOk result (replies.new.items ≡ replies.old.items ++ (grid_text version (cell_count params.now grid.now) ++ cells_text (cells_of params.now grid.now) values.now)) }
    ensures unsaid { OnErr result (replies.new.items ≡ replies.old.items) }
{
    let mut text = Vec::new(alloc);
    let count = element_count(params.dims, &grid.cells);
    let head = format!(in alloc; "grid,{version},{count}\n")?;
    text.extend_from_slice(head.as_bytes())?;
    put_cells(alloc, params, grid, values, &mut text)?;
    replies.extend_from_slice(text.as_slice())?;
    Ok(())
}

// Puts the lines of the cells.
fn put_cells(
    alloc: Global,
    params: &Params,
    grid: &Grid,
    values: &[i128],
    text: &mut Vec<u8>,
) -> Result<(), NoMemory>
    requires { IsInRange params.now }
    ensures { OnOk result (text.new.items ≡ text.old.items ++ cells_text (cells_of params.now grid.now) values.now) }
{
    let count = element_count(params.dims, &grid.cells);
    for number in 0..count.min(values.len() as u128) as usize {
        let at = indexes(params.dims, &grid.cells, number as u64);
        put_cell(alloc, &at[..usize::from(params.dims)], values[number], text)?;
    }
    Ok(())
}

// Puts the line of the cell at these indexes.
fn put_cell(alloc: Global, at: &[u32], value: i128, text: &mut Vec<u8>) -> Result<(), NoMemory>
    ensures { OnOk result (text.new.items ≡ text.old.items ++ cell_text at.now value) }
{
    text.extend_from_slice(b"cell,")?;
    put_indexes(alloc, at, text)?;
    let end = format!(in alloc; "{value}\n")?;
    text.extend_from_slice(end.as_bytes())?;
    Ok(())
}

// Puts the indexes, each with a comma behind it.
fn put_indexes(alloc: Global, at: &[u32], text: &mut Vec<u8>) -> Result<(), NoMemory>
    ensures { OnOk result (text.new.items ≡ text.old.items ++ flat_map (λ j. decimal j ++ codes ",") at.now) }
{
    for index in at {
        let field = format!(in alloc; "{index},")?;
        text.extend_from_slice(field.as_bytes())?;
    }
    Ok(())
}
