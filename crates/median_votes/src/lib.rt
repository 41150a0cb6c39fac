// The votes of the cells of a row, by the counts of the rows around it.
#![tactic(auto)]

mod votes;

pub use votes::vote_row;
