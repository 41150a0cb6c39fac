// The least and the greatest level of a line.
#![tactic(auto)]

mod extremes;

pub use extremes::{maximum, minimum};
