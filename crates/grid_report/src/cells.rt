//! The integrals over the cells of a grid.
ghost use Rattle.std.specs.Prelude.{◌≡◌, ◌≢◌, ◌+◌, ◌*◌, ◌^◌, ◌<◌, ◌≤◌, ℕ, Bool, true, Err, IsSome, IsTrue, IfOk, if◌then◌else◌, length, map, nat_lt, slice_index};
ghost use Rattle.bw_types.specs.Below.{below_at};
ghost use Rattle.bw_types.specs.Fits.{IsInRange, ends_fit};
ghost use Rattle.bw_types.specs.History.{History};
ghost use Rattle.bw_types.specs.Residues.{residue};
ghost use Rattle.ports.specs.Count.{Rose};
ghost use Rattle.warehouse.specs.Left.{IsAsBefore};
ghost use Rattle.page_warehouse.specs.Costs.{below_cost};
ghost use Rattle.page_warehouse.specs.Shown.{HasNewForm, HoldsHistory, disk_charge, disk_in, meta_in, params_in};
ghost use Rattle.grid_report.specs.Corners.{corner_at, corners_of};
ghost use Rattle.grid_report.specs.Grids.{grid_corners, grid_fits, grid_integrals, line_at};

use crate::Grid;
use crate::indexes::{element_count, indexes};
use crate::sums::{cell_values, line_counts};
use bw_types::Params;
use corner_weights::integrals::integral_by_corners;
use dom_index::DomIndex;
use history_laws::{answers_are_bounded, lawful_histories_have_room};
use page_disk::Disk;
use page_warehouse::Warehouse;
use std::alloc::Global;
use thiserror::Error;
use warehouse::QueryFault;

/// Why a grid was not answered.
#[derive(Clone, Copy, PartialEq, Eq, Debug, Error)]
pub enum GridFault {
    /// The device failed.
    #[error("the disk failed")]
    Disk,
    /// The disk holds no history: this page, which was read on the way, is not as the program leaves it.
    #[error("page {0} is damaged")]
    Damaged(u64),
    /// The version is above the last one, which is this.
    #[error("the last version is {0}")]
    NoVersion(u32),
    /// There was no memory.
    #[error("no memory")]
    NoMemory,
}

/// The integral over each cell of the grid at the version, times 6 for each dimension. The cells go by their indexes, that of the last
/// dimension running fastest.
///
/// The warehouse has a degree. In each dimension there is at least one cell, and a step of at least 1, and the last line is in range; the
/// grid has at most 4096 corners. The integral below each corner is asked for once. It takes memory for a number a corner and a cell. The
/// warehouse and its disk stay as they were.
///
/// `NoVersion` comes exactly where the version is above the last, which it carries, and before any call on the disk. `Disk` comes only where
/// the count of faults rose, `Damaged` only where the disk holds no history.
pub fn grid<D: Disk, X: DomIndex>(
    alloc: Global,
    house: &mut Warehouse<D, X>,
    grid: &Grid,
    version: u32,
) -> Result<Vec<i128>, GridFault>
    requires { IsTrue (grid_fits (params_in house.old) grid.now) }
    ensures cells { IfOk result (λ values. (whole : Bool) (h : History) → HoldsHistory D.Disk X.DomIndex whole (disk_in house.old) (params_in house.old) h
        → values.items ≡ grid_integrals (params_in house.old) h version grid.now) }
    ensures sound { (whole : Bool) (h : History) (page : ℕ) → HoldsHistory D.Disk X.DomIndex whole (disk_in house.old) (params_in house.old) h
        → result ≢ Err (GridFault.Damaged page) }
    ensures above { (meta_in house.old).version < version → (result ≡ Err (GridFault.NoVersion (meta_in house.old).version)) × (house.new ≡ house.old) }
    ensures within { (last : ℕ) → version ≤ (meta_in house.old).version → result ≢ Err (GridFault.NoVersion last) }
    ensures kept { IsAsBefore params_in disk_in (HoldsHistory D.Disk X.DomIndex) (HasNewForm D.Disk) D.tells D.image D.moments (disk_charge D.Disk) house.old house.new }
    ensures meta { meta_in house.new ≡ meta_in house.old }
    ensures disk { result ≡ Err GridFault.Disk → Rose (D.faults (disk_in house.old)) (D.faults (disk_in house.new)) }
    ensures faults { D.faults (disk_in house.old) ≤ D.faults (disk_in house.new) }
    ensures reads { (whole : Bool) (h : History) → HoldsHistory D.Disk X.DomIndex whole (disk_in house.old) (params_in house.old) h
        → D.reads (disk_in house.new) ≤ D.reads (disk_in house.old) + grid_corners (params_in house.old) grid.now * below_cost X.cost (params_in house.old) h }
{
    // The cells are sums of integrals below corners, and no integral is too great.
    integral_by_corners();
    answers_are_bounded();
    lawful_histories_have_room();
    let last = house.last();
    if version > last {
        return Err(GridFault::NoVersion(last));
    }
    let params = house.params();
    let corners = corners_below(alloc, house, grid, version)?;
    match cell_values(alloc, &params, grid, corners.as_slice()) {
        Ok(values) => Ok(values),
        Err(_) => Err(GridFault::NoMemory),
    }
}

// The integrals below all corners, modulo `2^128`, in the order of the corners.
fn corners_below<D: Disk, X: DomIndex>(
    alloc: Global,
    house: &mut Warehouse<D, X>,
    grid: &Grid,
    version: u32,
) -> Result<Vec<u128>, GridFault>
    requires fits { IsTrue (grid_fits (params_in house.old) grid.now) }
    requires within { version ≤ (meta_in house.old).version }
    ensures corners { IfOk result (λ corners. (whole : Bool) (h : History) → HoldsHistory D.Disk X.DomIndex whole (disk_in house.old) (params_in house.old) h
        → corners.items ≡ map (λ ks. residue (below_at (params_in house.old) h version (corner_at (params_in house.old) grid.now ks))) (corners_of (params_in house.old) grid.now)) }
    ensures all { IfOk result (λ corners. length corners.items ≡ grid_corners (params_in house.old) grid.now) }
    ensures sound { (whole : Bool) (h : History) (page : ℕ) → HoldsHistory D.Disk X.DomIndex whole (disk_in house.old) (params_in house.old) h
        → result ≢ Err (GridFault.Damaged page) }
    ensures version { (last : ℕ) → result ≢ Err (GridFault.NoVersion last) }
    ensures kept { IsAsBefore params_in disk_in (HoldsHistory D.Disk X.DomIndex) (HasNewForm D.Disk) D.tells D.image D.moments (disk_charge D.Disk) house.old house.new }
    ensures meta { meta_in house.new ≡ meta_in house.old }
    ensures disk { result ≡ Err GridFault.Disk → Rose (D.faults (disk_in house.old)) (D.faults (disk_in house.new)) }
    ensures faults { D.faults (disk_in house.old) ≤ D.faults (disk_in house.new) }
    ensures reads { (whole : Bool) (h : History) → HoldsHistory D.Disk X.DomIndex whole (disk_in house.old) (params_in house.old) h
        → D.reads (disk_in house.new) ≤ D.reads (disk_in house.old) + grid_corners (params_in house.old) grid.now * below_cost X.cost (params_in house.old) h }
{
    let params = house.params();
    let lines = line_counts(&params, grid);
    let mut corners = Vec::new(alloc);
    for number in 0..element_count(params.dims, &lines) as u64 {
        let at = corner(&params, grid, &indexes(params.dims, &lines, number));
        let value = match corner_below(house, &at, version) {
            Ok(value) => value,
            Err(fault) => return Err(fault),
        };
        if corners.push(value).is_err() {
            return Err(GridFault::NoMemory);
        }
    }
    Ok(corners)
}

// The integral below a corner, modulo `2^128`, at a version that there is.
fn corner_below<D: Disk, X: DomIndex>(
    house: &mut Warehouse<D, X>,
    at: &[u32; 3],
    version: u32,
) -> Result<u128, GridFault>
    requires degree { IsSome (params_in house.old).degree }
    requires at { ends_fit (params_in house.old) at.now at.now ≡ true }
    requires within { version ≤ (meta_in house.old).version }
    ensures below { IfOk result (λ value. (whole : Bool) (h : History) → HoldsHistory D.Disk X.DomIndex whole (disk_in house.old) (params_in house.old) h
        → value ≡ residue (below_at (params_in house.old) h version at.now)) }
    ensures sound { (whole : Bool) (h : History) (page : ℕ) → HoldsHistory D.Disk X.DomIndex whole (disk_in house.old) (params_in house.old) h
        → result ≢ Err (GridFault.Damaged page) }
    ensures version { (last : ℕ) → result ≢ Err (GridFault.NoVersion last) }
    ensures kept { IsAsBefore params_in disk_in (HoldsHistory D.Disk X.DomIndex) (HasNewForm D.Disk) D.tells D.image D.moments (disk_charge D.Disk) house.old house.new }
    ensures meta { meta_in house.new ≡ meta_in house.old }
    ensures disk { result ≡ Err GridFault.Disk → Rose (D.faults (disk_in house.old)) (D.faults (disk_in house.new)) }
    ensures faults { D.faults (disk_in house.old) ≤ D.faults (disk_in house.new) }
    ensures reads { (whole : Bool) (h : History) → HoldsHistory D.Disk X.DomIndex whole (disk_in house.old) (params_in house.old) h
        → D.reads (disk_in house.new) ≤ D.reads (disk_in house.old) + below_cost X.cost (params_in house.old) h }
{
    match house.below(at, version) {
        Ok(value) => Ok(value),
        Err(QueryFault::Disk) => Err(GridFault::Disk),
        Err(QueryFault::Damaged(page)) => Err(GridFault::Damaged(page)),
        Err(QueryFault::NoVersion(last)) => Err(GridFault::NoVersion(last)),
    }
}

// The corner where these lines meet, in stored numbers.
fn corner(params: &Params, grid: &Grid, lines: &[u32; 3]) -> [u32; 3]
    requires in_range { IsInRange params.now }
    requires fits { IsTrue (grid_fits params.now grid.now) }
    requires within { (i : ℕ) → i < params.now.dims → slice_index lines.now i ≤ slice_index grid.now.cells i }
    ensures at { result ≡ corner_at params.now grid.now lines.now }
    ensures fits { ends_fit params.now result result ≡ true }
{
    [
        line(params, grid, 0, lines[0]),
        line(params, grid, 1, lines[1]),
        line(params, grid, 2, lines[2]),
    ]
}

// The stored number of a line in a dimension, and 0 past the dimensions.
fn line(params: &Params, grid: &Grid, i: usize, k: u32) -> u32
    requires dimension { i < 3 }
    requires within { i < params.now.dims → line_at grid.now i k < 2 ^ 32 }
    ensures { result ≡ (if nat_lt i params.now.dims then line_at grid.now i k else 0) }
{
    if i < usize::from(params.dims) {
        grid.low[i] + grid.step[i] * k
    } else {
        0
    }
}
