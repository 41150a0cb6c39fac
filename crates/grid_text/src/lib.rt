// The text of a grid, fed part after part: the axis count, the lengths and the levels, between spaces or line feeds;
// and levels written as lines.
#![tactic(auto)]

mod machine;
mod shape;
mod store;

pub use grid_text_lines::write_lines;
pub use machine::{feed, finish, start};
