// The refusals of `uniform_filter1d` and `uniform_filter`.
#![tactic(auto)]

mod judge;

pub use judge::{judge_along, judge_uniform, judge_uniform1d};
