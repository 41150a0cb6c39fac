// The frame of a padded grid, set axis by axis; and the definitions and laws that the workers on padded grids share.
#![tactic(auto)]

ghost use Rattle.pad_spec.specs.Rows.{PadSpecRows};

mod frame;
mod pairs;
mod rim;

pub use frame::set_frame;
pub use pairs::{Pair, pair_of};
pub use rim::{Filler, Statistic, bad_pad, filler_of};

// Worked rows of this crate's definitions: the rims of a lane, padded grids and refusals, what the workers leave.
pub fn rows()
    ensures { PadSpecRows }
{}
