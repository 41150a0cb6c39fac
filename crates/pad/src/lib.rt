// Padding of grids: `pad` fills the rim, `pad_to` under Constant keeps what was lent there.
// Its workers set the rim to a constant, copy the grid into the middle, and have the rims filled.
#![tactic(auto)]

ghost use Rattle.pad.specs.Rows.{PadRows};

mod calls;

pub use calls::{pad, pad_to};

// Worked rows of this crate's definitions.
pub fn rows()
    ensures { PadRows }
{}
