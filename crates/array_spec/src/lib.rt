// Row-major arrays of one to three axes: what ndarray is to the Rust.
// A shape is the length of each axis; the cells stand in one slice, the last axis fastest.
// Here are the definitions and their laws; `array` has the code.
#![tactic(auto)]

ghost use Rattle.array_spec.specs.Rows.{ArraySpecRows};

// Worked rows of this crate's definitions.
pub fn rows()
    ensures { ArraySpecRows }
{}
