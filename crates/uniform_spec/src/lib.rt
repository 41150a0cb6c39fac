// The uniform filters as definitions, and what they refuse.
#![tactic(auto)]

ghost use Rattle.uniform_spec.specs.Rows.{UniformSpecRows};

// Worked rows of this crate's definitions: the means of a line, grids and refusals.
pub fn rows()
    ensures { UniformSpecRows }
{}
