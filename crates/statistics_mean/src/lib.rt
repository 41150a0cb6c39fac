// The mean level of a line, and which lines mean and median serve.
#![tactic(auto)]

ghost use Rattle.statistics_mean.specs.Rows.{StatisticsMeanRows};

mod means;

pub use means::{mean, not_served};

// Worked rows of this crate's definitions.
pub fn rows()
    ensures { StatisticsMeanRows }
{}
