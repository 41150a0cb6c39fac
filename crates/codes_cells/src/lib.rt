// What the entry points (`capi`) read from and write to slices where the libraries take and give values: the border and
// the pads of each axis, and the cells of a kernel.
#![tactic(auto)]

ghost use Rattle.codes_cells.specs.Rows.{CodesCellsRows};

mod borders;
mod kernel;
mod pads;

pub use borders::{modes_of, unknown_any};
pub use kernel::write_kernel;
pub use pads::pairs_of;

// Worked rows of this crate's definitions: borders and pads that are missing, and the cells of the star.
pub fn rows()
    ensures { CodesCellsRows }
{}
