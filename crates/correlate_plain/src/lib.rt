// Sums without raising: the weighted sums of a whole line, added to what a row holds (plain.rt) or set (set.rt), and
// the sum of a list of cells (sums.rt).
#![tactic(auto)]

ghost use Rattle.correlate_plain.specs.Rows.{CorrelatePlainRows};

mod plain;
mod set;
mod sums;

pub use plain::add_line;
pub use set::set_line;
pub use sums::sum_of;

// Worked rows of this crate's definitions.
pub fn rows()
    ensures { CorrelatePlainRows }
{}
