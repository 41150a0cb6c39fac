// The rims of a padded grid under a mode that takes a statistic, axis by axis.
#![tactic(auto)]

mod rims;

pub use rims::fill_levels;
