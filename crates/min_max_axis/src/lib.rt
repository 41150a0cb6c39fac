// Minimum and maximum along an axis, where the call is accepted: each lane is padded, and its windows are swept.
#![tactic(auto)]

ghost use Rattle.min_max_axis.specs.Rows.{MinMaxAxisRows};

mod each_lane;
mod extreme;
mod sweep;

pub use extreme::Extreme;
pub use sweep::pass;

// Worked rows of this crate's definitions.
pub fn rows()
    ensures { MinMaxAxisRows }
{}
