// The requests of the program `ndimage`, what is read for each of their parts, and where that is kept.
#![tactic(auto)]

mod parts;
pub mod requests;
pub mod state;

pub use parts::{code_of, fault_of, is_float, last_after, part_of, slot_of, times};
