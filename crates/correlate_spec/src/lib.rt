// The weighted sum of a window: its definitions over any element, and the laws of the loops that compute it.
#![tactic(auto)]

ghost use Rattle.correlate_spec.specs.Rows.{CorrelateSpecRows};

// Worked rows of this crate's definitions.
pub fn rows()
    ensures { CorrelateSpecRows }
{}
