// The float twin of `pad_line`: a lane of floats read into a lent line and extended in place.
#![tactic(auto)]

ghost use Rattle.std.specs.Prelude.{◌≡◌, ◌++◌, ◌+◌, drop};
ghost use Rattle.std.specs.Float.{nan};
ghost use Rattle.lanes.specs.Lanes.{lane_at};
ghost use Rattle.border.specs.Modes.{border_of_f64};
ghost use Rattle.pad_line.specs.Line.{padded_line, PadNeeds};
ghost use Rattle.pad_line_f64.specs.Rows.{PadLineF64Rows};

use border::BorderModeF64;

mod extension;

// As `pad_line::pad_from`, of float levels.
pub fn pad_from_f64(
    grid: &[f64],
    base: usize,
    stride: usize,
    n: usize,
    mode: BorderModeF64,
    left: usize,
    right: usize,
    line: &mut [f64],
)
    requires { PadNeeds (border_of_f64 mode) n stride base left right grid.now line.old }
    ensures { line.new ≡ padded_line nan (border_of_f64 mode) left right
        (lane_at nan grid.now base stride n) ++ drop (left + n + right) line.old }
{
    let e = left + n;
    lane_cells::read_from_f64(grid, base, stride, &mut line[left..e]);
    extension::extend_f64(mode, left, n, right, line);
}

// Worked rows on floats of `pad_line`'s definitions: T1 on any three floats, condition 11, a window.
pub fn rows()
    ensures { PadLineF64Rows }
{}
