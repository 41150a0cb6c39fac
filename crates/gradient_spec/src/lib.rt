// Prewitt and Sobel as definitions, and what they refuse.
#![tactic(auto)]

ghost use Rattle.gradient_spec.specs.Rows.{GradientSpecRows};

// Worked rows of this crate's definitions: T7 and each number at its limits.
pub fn rows()
    ensures { GradientSpecRows }
{}
