// Condition 10 of `pad` and `pad_to`.
#![tactic(auto)]

mod count;

pub use count::bad_pads;
