// The window of a cell, as definitions: which origins it takes, the pads that it needs, conditions 5, 7 and 11, and the
// changed origin of a convolution. `window` has the code.
#![tactic(auto)]

ghost use Rattle.window_spec.specs.Rows.{WindowSpecRows};

// The answer to an origin.
#[derive(Clone, Copy)]
pub enum Origin {
    // Accepted: the left pad and the right pad.
    Pads(usize, usize),
    // Refusal 7.
    Refused,
}

// Worked rows of this crate's definitions: origins, lengths and pads at their limits, and the changed origin of a
// convolution.
pub fn rows()
    ensures { WindowSpecRows }
{}
