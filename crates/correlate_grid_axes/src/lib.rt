// A grid and its kernel as three axes, and which cell each place of a padded axis reads.
#![tactic(auto)]

ghost use Rattle.correlate_grid_axes.specs.Rows.{CorrelateGridAxesRows};

mod axes;

pub use axes::{Axes, Axis, axes_of, find_sources};

// Worked rows of this crate's definitions.
pub fn rows()
    ensures { CorrelateGridAxesRows }
{}
