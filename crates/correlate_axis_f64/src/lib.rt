// Weighted sums of floats on the lanes of an axis.
#![tactic(auto)]

mod each_lane;

pub use each_lane::correlate_axis_f64;
