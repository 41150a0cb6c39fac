// The refusal numbers and the limits of the papers by name, and the size of a whole number. All else of this crate is
// definitions (specs/) and laws (proofs/).
#![tactic(auto)]

ghost use Rattle.std.specs.Prelude.{◌≡◌, nat_abs};
ghost use Rattle.numbers.specs.Number.{answer_number};
ghost use Rattle.numbers.specs.Rows.{NumbersRows};

use std::error::Error;
use std::fmt;

// Why a call is refused. Its number is the papers'.
#[derive(Clone, Copy, Debug, PartialEq, Eq, Drop)]
pub enum Refusal {
    // Caused by whoever owns the grid.
    // Not 1 to 3 axes (median: not 3), a length outside 1..1,024, or over 8,192 cells.
    Shape = 1,
    // A lent grid whose length is not the cell count.
    Length = 2,
    // An input level outside -(2^31 - 1)..2^31 - 1, or a float one that is not finite.
    Level = 3,
    // Median: an axis of one cell.
    SingleCell = 4,

    // Caused by the kernel's author.
    // Weights or a window length outside 1..65; of a grid kernel its sides, axes or weight count.
    Kernel = 5,
    // A weight outside -65,535..65,535, or a float one that is not finite.
    Weight = 6,
    // An origin that the window does not allow.
    Origin = 7,

    // Caused by the operator.
    // An axis number not below the axis count.
    Axis = 8,
    // A constant that Level would refuse.
    Constant = 9,
    // Pads: their count, a pad over 64, over 32,768 padded cells, or an output of another length.
    Pads = 10,
    // A pad that reaches past what the border can fill.
    Reach = 11,

    // Caused by the arithmetic.
    // A whole-number sum outside signed 64 bits.
    Sum = 12,

    // Caused by the file of a recipe.
    // Under 6 bytes, or another mark or version.
    Mark = 13,
    // A count outside 1..16, or bytes of another length than the count asks for.
    Count = 14,
    // A kind, border, constant or origin that no step has.
    Step = 15,

    // Caused by the caller of an entry point, and judged last.
    // A code that names nothing, or a number that its field cannot hold.
    Unknown = 100,
}

// What was refused, in a word or two.
impl fmt::Display for Refusal {
    fn fmt<W: fmt::Write>(&self, f: &mut fmt::Formatter<W>) -> fmt::Result {
        f.write_str(match self {
            Refusal::Shape => "shape",
            Refusal::Length => "length",
            Refusal::Level => "level",
            Refusal::SingleCell => "axis of one cell",
            Refusal::Kernel => "kernel",
            Refusal::Weight => "weight",
            Refusal::Origin => "origin",
            Refusal::Axis => "axis",
            Refusal::Constant => "constant",
            Refusal::Pads => "pads",
            Refusal::Reach => "reach",
            Refusal::Sum => "sum",
            Refusal::Mark => "mark",
            Refusal::Count => "count",
            Refusal::Step => "step",
            Refusal::Unknown => "unknown code",
        })
    }
}

impl Error for Refusal {}

// The number of what a call answers: 0 where it was accepted.
pub fn answer_number(answer: Result<(), Refusal>) -> u8
    ensures { result ≡ answer_number answer }
{
    match answer {
        Ok(()) => 0,
        Err(refusal) => refusal as u8,
    }
}

// The limits of document 01.
// Cells on an axis, and of a grid.
pub const LONGEST_AXIS: usize = 1024;

pub const MOST_CELLS: usize = 8192;
// The least and the largest input level or constant.
pub const LEAST_LEVEL: i64 = -2147483647;

pub const LARGEST_LEVEL: i64 = 2147483647;
// Cells of a window, and weights along an axis.
pub const LONGEST_WINDOW: usize = 65;
// Cells on the side of a grid kernel.
pub const LONGEST_SIDE: usize = 7;
// The least and the largest whole weight.
pub const LEAST_WEIGHT: i64 = -65535;

pub const LARGEST_WEIGHT: i64 = 65535;
// Places padded on one side.
pub const LONGEST_PAD: usize = 64;
// Cells of a filter's padded line: an axis and the pads of a window.
pub const LONGEST_LINE: usize = 1088;
// Cells on an axis of a padded grid, and of a padded grid.
pub const LONGEST_PADDED_AXIS: usize = 1152;

pub const MOST_PADDED_CELLS: usize = 32768;

// The size of z, its sign left out. Of -2^63, which has no negation, it is 2^63.
pub fn magnitude(z: i64) -> u64
    ensures { result ≡ nat_abs z }
{
    z.unsigned_abs()
}

// Worked rows of this crate's definitions.
pub fn rows()
    ensures { NumbersRows }
{}
