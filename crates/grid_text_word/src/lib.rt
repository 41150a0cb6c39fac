// A word of the text of a grid: read byte by byte, and what it is not.
#![tactic(auto)]

mod plain;
mod word;

pub use plain::{is_plain, plain_byte};
pub use word::{capped_size, is_broken, is_empty, is_gap, is_out, is_wrong, next_byte, no_word};
