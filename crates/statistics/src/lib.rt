// The least, the greatest, the mean and the median level of a line; the median's code is here.
#![tactic(auto)]

mod medians;
mod middle;

pub use medians::median;
pub use statistics_extremes::{maximum, minimum};
pub use statistics_mean::mean;
