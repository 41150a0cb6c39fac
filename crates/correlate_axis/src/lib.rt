// Weighted sums of whole levels on the lanes of an axis.
#![tactic(auto)]

ghost use Rattle.correlate_axis.specs.Rows.{CorrelateAxisRows};

mod each_lane;

pub use each_lane::correlate_axis;

// Worked rows of this crate's definitions.
pub fn rows()
    ensures { CorrelateAxisRows }
{}
