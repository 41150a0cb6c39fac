// The middle of a padded grid, where the grid stands: its rows are copied there, and the gaps between them are set to a
// constant.
#![tactic(auto)]

ghost use Rattle.pad_middle.specs.Rows.{PadMiddleRows};

mod around;
mod middle;

pub use around::fill_around;
pub use middle::copy_middle;

// Worked rows of this crate's definitions.
pub fn rows()
    ensures { PadMiddleRows }
{}
