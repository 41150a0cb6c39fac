// The padded line: a lane read into a lent line and extended in place. `window` has the window of a cell.
// What a line filter gives on every padded lane of an axis is defined in specs/Lane.antt. The loops over lanes stand
// with their filters; their laws are here, over any element and line filter: OneLane, EveryLane, RowLoop, ColumnLoop.
#![tactic(auto)]

ghost use Rattle.pad_line.specs.Rows.{PadLineRows};
ghost use Rattle.std.specs.Prelude.{◌≡◌, ◌&&◌, ◌+◌, leb, pos, drop, ◌++◌};
ghost use Rattle.lanes.specs.Lanes.{lane_inside, lane_at};
ghost use Rattle.border.specs.Modes.{border_of};
ghost use Rattle.pad_line.specs.Line.{padded_line, padded_lane, PadNeeds};

use border::BorderMode;

mod extension;
mod steps;

pub use steps::{copy_steps, copy_steps_f64};

// Whether a lane is inside the grid and its padded line no longer than the lent one.
//
// * `count` - how many cells the grid has.
// * `stride`, `lane`, `n` - as in `pad_lane`.
// * `left`, `right` - how many places are padded before and after the lane.
// * `room` - how long the lent line is.
//
// False for a grid of over 32,768 cells. Lane 1 of three cells, 1 apart, of a grid of 6 with pads 2 and 2 fits a line
// of 7 and not one of 6; lane 2 fits none.
pub fn lane_fits(
    count: usize,
    stride: usize,
    lane: usize,
    n: usize,
    left: usize,
    right: usize,
    room: usize,
) -> bool
    ensures { result ≡ lane_inside n stride lane count && leb (left + n + right) room }
{
    left <= room
        && n <= room - left
        && right <= room - left - n
        && lanes::first_place(count, n, stride, lane) != count
}

// Reads the n cells of the grid from place base on, stride apart, into a lent line and extends them by the border. The
// other arguments are those of `pad_lane`, for a caller that has tested them. Of 4 5 6 1 2 3 the three neighbours from
// place 3 on, with pads 2 and 2 under Mirror, are 3 2 1 2 3 2 1.
pub fn pad_from(
    grid: &[i64],
    base: usize,
    stride: usize,
    n: usize,
    mode: BorderMode,
    left: usize,
    right: usize,
    line: &mut [i64],
)
    requires { PadNeeds (border_of mode) n stride base left right grid.now line.old }
    ensures { line.new ≡ padded_line (pos 0) (border_of mode) left right
        (lane_at (pos 0) grid.now base stride n) ++ drop (left + n + right) line.old }
{
    let e = left + n;
    lane_cells::read_from(grid, base, stride, &mut line[left..e]);
    extension::extend(mode, left, n, right, line);
}

// Reads a lane of the grid into a lent line and extends it by the border: the padded line.
//
// * `grid` - the cells of the grid.
// * `stride`, `lane`, `n` - how many places apart the cells of the axis stand, the number of the lane, how many cells
//   it has (`lanes::lanes_of`).
// * `mode` - the border.
// * `left`, `right` - how many places are padded before and after the lane.
// * `line` - holds the padded line from its start on; what is past the padded line stays as it was.
//
// The line stays as it was where the lane is not inside the grid, the grid has over 32,768 cells, the padded line is
// longer than the lent one, or condition 11 (`bad_pad`) refuses a pad.
// Lane 1 of the rows 4 5 6 / 1 2 3 along axis 1, with pads 2 and 2 under Mirror, is 3 2 1 2 3 2 1.
pub fn pad_lane(
    grid: &[i64],
    stride: usize,
    lane: usize,
    n: usize,
    mode: BorderMode,
    left: usize,
    right: usize,
    line: &mut [i64],
)
    ensures { line.new ≡ padded_lane (pos 0) (border_of mode) n stride lane left right grid.now
        line.old }
{
    if border::bad_pad(mode, n, left) {
        return;
    }
    if border::bad_pad(mode, n, right) {
        return;
    }
    if !lane_fits(grid.len(), stride, lane, n, left, right, line.len()) {
        return;
    }
    let base = lanes::first_place(grid.len(), n, stride, lane);
    pad_from(grid, base, stride, n, mode, left, right, line);
}

// Worked rows of this crate's definitions: padded lines, cells copied by steps.
pub fn rows()
    ensures { PadLineRows }
{}
