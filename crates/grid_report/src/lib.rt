//! Grids: the integral over each cell of a grid, from corners that cells share.
//!
//! [`grid`] asks a warehouse for the integral below each corner of a grid once, and each cell is the signed sum of its corners. [`read_grid`]
//! reads the row that asks for a grid, and [`GridDesk`] answers such rows line by line.
#![tactic(auto)]

mod asked;
mod cells;
mod desk;
mod fits;
mod indexes;
mod laws;
mod replies;
mod rows;
mod sums;
pub mod worked;

pub use asked::{Grid, GridRow};
pub use cells::{GridFault, grid};
pub use desk::GridDesk;
pub use fits::grid_fits;
pub use laws::cells_add_up;
pub use rows::read_grid;
