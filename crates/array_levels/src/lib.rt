// Condition 3 of a refusal: levels that no grid may have, whole and float.
#![tactic(auto)]

ghost use Rattle.array_levels.specs.Rows.{ArrayLevelsRows};

mod conditions;
mod level_range;

pub use conditions::{bad_level, bad_level_f64, bad_levels, bad_levels_f64};
pub use level_range::{any_outside, any_over, lifted};

// Worked rows of this crate's definitions.
pub fn rows()
    ensures { ArrayLevelsRows }
{}
