// The least, or the greatest, level of each window of a line: the hot functions.
#![tactic(auto)]

mod minlist;
mod order;
mod windows;

pub use windows::{maximum_line, maximum_windows, minimum_line, minimum_windows};
