// The median of a mask, row by row.
#![tactic(auto)]

mod row;

pub use row::median_rows;
