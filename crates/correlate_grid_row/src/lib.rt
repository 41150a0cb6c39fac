// One row of a grid kernel on one row of the grid.
#![tactic(auto)]

ghost use Rattle.correlate_grid_row.specs.Rows.{CorrelateGridRowRows};

mod row;

pub use row::{add_kernel_row, row_for};

// Worked rows of this crate's definitions.
pub fn rows()
    ensures { CorrelateGridRowRows }
{}
