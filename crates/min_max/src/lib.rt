// Minimum and maximum filters along one axis and along every axis (src/filters/min_max.rs; SciPy's minimum_filter1d,
// maximum_filter1d, minimum_filter and maximum_filter).
#![tactic(auto)]

mod every_axis;
mod one_axis;

pub use every_axis::{maximum_filter, minimum_filter};
pub use min_max_axis::{Extreme, pass};
pub use one_axis::{maximum_filter1d, minimum_filter1d};
