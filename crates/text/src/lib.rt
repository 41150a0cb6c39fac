// Whole numbers read from text and written to it.
#![tactic(auto)]

mod read;
mod write;

pub use read::{digit, numeral, read_signed, read_unsigned};
pub use write::{spell, write_signed};
