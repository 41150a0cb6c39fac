// What the padding modes fill the rims of a lane with, and condition 11 of a lane by padding's names. `pad_statistic_axis`
// fills a lane with a statistic of its cells, in the grid itself.
ghost use Rattle.std.specs.Prelude.{◌≡◌, []};
ghost use Rattle.border.specs.Reach.{bad_pad};
ghost use Rattle.pad_spec.specs.Fill.{filler_of, rim_of};

use border::{CellBorder, PadMode};

// Which level of a lane's own cells fills its rims.
#[derive(Clone, Copy)]
pub enum Statistic {
    Maximum,
    Mean,
    Median,
    Minimum,
}

// What fills the rims of a lane.
#[derive(Clone, Copy)]
pub enum Filler {
    // A level that the mode carries.
    Level(i64),
    // Cells of the lane.
    Cells(CellBorder),
    // A level of the lane's own cells.
    Statistic(Statistic),
}

// What a padding mode fills the rims of a lane with.
//
// * `mode` - the padding mode.
//
// PadMode::Constant(7) gives Filler::Level(7), PadMode::Symmetric Filler::Cells(CellBorder::Reflect), PadMode::Mean
// Filler::Statistic(Statistic::Mean).
pub fn filler_of(mode: PadMode) -> Filler
    ensures { result ≡ filler_of mode }
{
    match mode {
        PadMode::Constant(c) => Filler::Level(c),
        PadMode::Edge => Filler::Cells(CellBorder::Nearest),
        PadMode::Maximum => Filler::Statistic(Statistic::Maximum),
        PadMode::Mean => Filler::Statistic(Statistic::Mean),
        PadMode::Median => Filler::Statistic(Statistic::Median),
        PadMode::Minimum => Filler::Statistic(Statistic::Minimum),
        PadMode::Reflect => Filler::Cells(CellBorder::Mirror),
        PadMode::Symmetric => Filler::Cells(CellBorder::Reflect),
        PadMode::Wrap => Filler::Cells(CellBorder::Wrap),
    }
}

// Condition 11 of a lane: whether the padding mode cannot fill a pad that long.
//
// * `mode` - the padding mode.
// * `n` - how many cells the lane has.
// * `pad` - how many places are padded on one side.
//
// Of three cells Reflect fills a pad of 2 and not of 3, Symmetric and Wrap fill 3 and not 4, the others any.
pub fn bad_pad(mode: PadMode, n: usize, pad: usize) -> bool
    ensures { result ≡ bad_pad (rim_of mode []) n pad }
{
    match filler_of(mode) {
        Filler::Cells(along) => border::bad_along(along, n, pad),
        Filler::Level(_) | Filler::Statistic(_) => false,
    }
}
