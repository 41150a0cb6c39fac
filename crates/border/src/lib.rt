// Borders: the border modes and the padding modes that they map to, and the cells that they read.
// What a border extends a lane and a grid to is a definition: specs/Border.antt.
#![tactic(auto)]

ghost use Rattle.std.specs.Prelude.{◌≡◌, ◌-◌, ℤ};
ghost use Rattle.border.specs.Axes.{OneBorder};
ghost use Rattle.border.specs.AxesRows.{AxesRows};
ghost use Rattle.border.specs.Border.{cell_before, cell_after};
ghost use Rattle.border.specs.Modes.{pad_mode_of, kind_of};
ghost use Rattle.border.specs.Rows.{BorderRows};

mod axes;
mod constant;
mod reach;

pub use axes::{bad_constant_any, mode_on};
pub use constant::{bad_constant, bad_constant_f64};
pub use reach::{bad_along, bad_pad};

// How a grid of whole levels is extended beyond its edges.
#[derive(Clone, Copy)]
pub enum BorderMode {
    // All levels beyond the edge are this one.
    // [1, 2, 3] -> [T, T, 1, 2, 3, T, T]
    Constant(i64),
    // Reflected about the centre of the last cell.
    // [1, 2, 3] -> [3, 2, 1, 2, 3, 2, 1]
    Mirror,
    // The last cell is repeated.
    // [1, 2, 3] -> [1, 1, 1, 2, 3, 3, 3]
    Nearest,
    // Reflected about the edge of the last cell.
    // [1, 2, 3] -> [2, 1, 1, 2, 3, 3, 2]
    Reflect,
    // Wrapped around to the opposite edge.
    // [1, 2, 3] -> [2, 3, 1, 2, 3, 1, 2]
    Wrap,
}

// The same of a grid of floats.
#[derive(Clone, Copy)]
pub enum BorderModeF64 {
    // [1, 2, 3] -> [T, T, 1, 2, 3, T, T]
    Constant(f64),
    // [1, 2, 3] -> [3, 2, 1, 2, 3, 2, 1]
    Mirror,
    // [1, 2, 3] -> [1, 1, 1, 2, 3, 3, 3]
    Nearest,
    // [1, 2, 3] -> [2, 1, 1, 2, 3, 3, 2]
    Reflect,
    // [1, 2, 3] -> [2, 3, 1, 2, 3, 1, 2]
    Wrap,
}

// The borders that read a cell of the axis.
#[derive(Clone, Copy)]
pub enum CellBorder {
    Nearest,
    Mirror,
    Reflect,
    Wrap,
}

// What a lane is padded with.
#[derive(Clone, Copy)]
pub enum PadMode {
    // A constant level.
    // [1, 2, 3] -> [T, T, 1, 2, 3, T, T]
    Constant(i64),
    // The level at the edge.
    // [1, 2, 3] -> [1, 1, 1, 2, 3, 3, 3]
    Edge,
    // The greatest level of the lane.
    // [1, 2, 3] -> [3, 3, 1, 2, 3, 3, 3]
    Maximum,
    // The mean of the lane.
    // [1, 2, 3] -> [2, 2, 1, 2, 3, 2, 2]
    Mean,
    // The median of the lane.
    // [1, 2, 3] -> [2, 2, 1, 2, 3, 2, 2]
    Median,
    // The least level of the lane.
    // [1, 2, 3] -> [1, 1, 1, 2, 3, 1, 1]
    Minimum,
    // The lane mirrored on its first and last levels.
    // [1, 2, 3] -> [3, 2, 1, 2, 3, 2, 1]
    Reflect,
    // The lane mirrored along its edges.
    // [1, 2, 3] -> [2, 1, 1, 2, 3, 3, 2]
    Symmetric,
    // The last levels before the first, and the first after the last.
    // [1, 2, 3] -> [2, 3, 1, 2, 3, 1, 2]
    Wrap,
}

impl BorderMode {
    // The padding mode that extends a lane as this border does. BorderMode::Mirror gives PadMode::Reflect,
    // BorderMode::Reflect gives PadMode::Symmetric.
    pub fn to_pad_mode(self) -> PadMode
        ensures { result ≡ pad_mode_of self }
    {
        match self {
            BorderMode::Constant(t) => PadMode::Constant(t),
            BorderMode::Mirror => PadMode::Reflect,
            BorderMode::Nearest => PadMode::Edge,
            BorderMode::Reflect => PadMode::Symmetric,
            BorderMode::Wrap => PadMode::Wrap,
        }
    }
}

// The cell that a border reads for the place k before cell 0.
//
// * `along` - the border.
// * `n` - how many cells the axis has.
// * `k` - how many places before cell 0.
//
// Differences stop at 0. Of three cells, two places before cell 0: Nearest reads cell 0, Mirror 2, Reflect 1, Wrap 1.
pub fn cell_before(along: CellBorder, n: usize, k: usize) -> usize
    ensures { result ≡ cell_before along n k }
{
    match along {
        CellBorder::Nearest => 0,
        CellBorder::Mirror => k,
        CellBorder::Reflect => k.saturating_sub(1),
        CellBorder::Wrap => n.saturating_sub(k),
    }
}

// The cell that a border reads for the place k after the last cell; the arguments are those of `cell_before`.
// Differences stop at 0. Of three cells, two places after cell 2: Nearest reads cell 2, Mirror 0, Reflect 1, Wrap 1.
pub fn cell_after(along: CellBorder, n: usize, k: usize) -> usize
    ensures { result ≡ cell_after along n k }
{
    match along {
        CellBorder::Nearest => n.saturating_sub(1),
        CellBorder::Mirror => n.saturating_sub(1).saturating_sub(k),
        CellBorder::Reflect => n.saturating_sub(k),
        CellBorder::Wrap => k.saturating_sub(1),
    }
}

// The border over whole levels that reads what mode reads; its constant is 0. kind_of(Constant(1.5)) is Constant(0).
pub fn kind_of(mode: BorderModeF64) -> BorderMode
    ensures { result ≡ kind_of mode }
{
    match mode {
        BorderModeF64::Constant(_) => BorderMode::Constant(0),
        BorderModeF64::Mirror => BorderMode::Mirror,
        BorderModeF64::Nearest => BorderMode::Nearest,
        BorderModeF64::Reflect => BorderMode::Reflect,
        BorderModeF64::Wrap => BorderMode::Wrap,
    }
}

// The extended grid of one border for every axis is document 01's.
pub fn one_border()
    ensures { OneBorder ℤ }
{}

// Worked rows of this crate's definitions: T1, cells of extended grids, padding modes, and constants at their limits;
// the same with a border for each axis.
pub fn rows()
    ensures { BorderRows × AxesRows }
{}
