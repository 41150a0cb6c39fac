// The rims of a padded grid under the modes that take one level for a lane: Maximum, Mean, Median and Minimum.
#![tactic(auto)]

mod axis;
mod level;
mod place;
mod rims;

pub use axis::fill_axis;
