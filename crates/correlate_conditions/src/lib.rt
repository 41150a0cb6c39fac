// The conditions of weights and grid kernels: 6 of whole weights and 5 of a kernel.
#![tactic(auto)]

mod kernel_sides;
mod weights;

pub use kernel_sides::bad_kernel;
pub use weights::{bad_weight, bad_weights};
