// The sums of a line of floats by pairs of cells that mirror each other.
#![tactic(auto)]

mod pairs;
mod terms;

pub use pairs::pair_line_f64;
