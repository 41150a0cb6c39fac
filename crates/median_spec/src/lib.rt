// The median of a mask of three axes: its definitions, cell by cell and row by row, and their laws.
// `median` has the code.
#![tactic(auto)]

ghost use Rattle.median_spec.specs.Rows.{MedianSpecRows};

// The coordinates from `from` to `to`, `to` not included.
#[derive(Clone, Copy)]
pub struct Span {
    pub from: usize,
    pub to: usize,
}

// Worked rows of this crate's definitions.
pub fn rows()
    ensures { MedianSpecRows }
{}
