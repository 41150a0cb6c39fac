// The means along an axis, where the call is accepted.
#![tactic(auto)]

ghost use Rattle.uniform_axis.specs.Rows.{UniformAxisRows};

mod lane_loop;

pub use lane_loop::uniform_axis;

// Worked rows of this crate's definitions.
pub fn rows()
    ensures { UniformAxisRows }
{}
