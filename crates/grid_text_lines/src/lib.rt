// Levels as lines of text.
#![tactic(auto)]

mod lines;

pub use lines::write_lines;
