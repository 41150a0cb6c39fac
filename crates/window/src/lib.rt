// The window of a cell: which origins it takes, the pads that it needs, conditions 5, 7 and 11, the changed origin of a
// convolution, and its part of a padded line. `window_spec` has the definitions.
#![tactic(auto)]

mod conditions;
mod convolution;
mod origin;
mod part;

pub use conditions::{bad_reach, bad_reach_any, bad_size, bad_window_origin};
pub use convolution::{applied_origin, bad_applied_reach, bad_kernel_reach};
pub use origin::{bad_origin, kernel_origin_check, origin_check};
pub use part::{window, window_f64};
