// The least, or the greatest, level of each window of three cells.
#![tactic(auto)]

mod windows;

pub use windows::three_cells;
