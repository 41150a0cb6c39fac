// The lengths of a shape and its cell count.
#![tactic(auto)]

mod shapes;

pub use shapes::{cell_count, len_of};
