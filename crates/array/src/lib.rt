// Row-major arrays: the cell count of a shape, conditions 1, 2, 3 and 8 of a refusal with the judge of a grid, and
// copies.
#![tactic(auto)]

mod conditions;
mod copies;

pub use array_levels::{
    any_outside, any_over, bad_level, bad_level_f64, bad_levels, bad_levels_f64, lifted,
};
pub use array_shapes::{cell_count, len_of};
pub use conditions::{bad_axis, bad_length, bad_lengths, bad_shape, judge_grid, judge_grid_f64};
pub use copies::{assign, copy, fill};
