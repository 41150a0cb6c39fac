// The two rims of an axis under a mode that copies cells: coordinate by coordinate, or lane by lane.
#![tactic(auto)]

ghost use Rattle.pad_copy_axis.specs.Rows.{PadCopyAxisRows};

mod coordinate;
mod rims;
mod side;

pub use rims::copy_rims;

// Worked rows of this crate's definitions.
pub fn rows()
    ensures { PadCopyAxisRows }
{}
