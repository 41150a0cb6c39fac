// The weighted sums of a line whose cells are raised above zero.
#![tactic(auto)]

ghost use Rattle.correlate_raised.specs.Rows.{CorrelateRaisedRows};

mod raised;
mod raised_start;

pub use raised::raised_line;

// Worked rows of this crate's definitions.
pub fn rows()
    ensures { CorrelateRaisedRows }
{}
