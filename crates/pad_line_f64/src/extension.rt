// As extension.rt of `pad_line`, of float levels.
ghost use Rattle.std.specs.Prelude.{◌≡◌, false, ◌+◌, ◌≤◌, ◌<◌, length};
ghost use Rattle.std.specs.Float.{nan};
ghost use Rattle.border.specs.Border.{constant, along};
ghost use Rattle.border.specs.Modes.{border_of_f64};
ghost use Rattle.pad_line.specs.Line.{pad_middle};
ghost use Rattle.border.specs.Reach.{bad_pad};
ghost use Rattle.pad_line.specs.Rims.{RimNeeds};

use border::{BorderModeF64, CellBorder};
use pad_line::copy_steps_f64;

fn extend_constant_f64(c: f64, left: usize, n: usize, right: usize, line: &mut [f64])
    requires { left + n + right ≤ length line.old }
    ensures { line.new ≡ pad_middle nan (constant c) left n right line.old }
{
    for i in 0..left {
        line[i] = c;
    }
    for j in left + n..left + n + right {
        line[j] = c;
    }
}

fn extend_along_f64(
    mode: CellBorder,
    up: usize,
    down: usize,
    left: usize,
    n: usize,
    right: usize,
    line: &mut [f64],
)
    requires { RimNeeds mode up down left n right (length line.old) }
    ensures { line.new ≡ pad_middle nan (along mode) left n right line.old }
{
    let before = left + border::cell_before(mode, n, left);
    copy_steps_f64(up, down, before, 0, left, line);
    let after = left + border::cell_after(mode, n, 1);
    copy_steps_f64(up, down, after, left + n, right, line);
}

pub(crate) fn extend_f64(mode: BorderModeF64, left: usize, n: usize, right: usize, line: &mut [f64])
    requires { (0 < n) × (left + n + right ≤ length line.old) × (bad_pad (border_of_f64 mode) n left ≡ false)
        × (bad_pad (border_of_f64 mode) n right ≡ false) }
    ensures { line.new ≡ pad_middle nan (border_of_f64 mode) left n right line.old }
{
    match mode {
        BorderModeF64::Constant(c) => extend_constant_f64(c, left, n, right, line),
        BorderModeF64::Mirror => extend_along_f64(CellBorder::Mirror, 0, 1, left, n, right, line),
        BorderModeF64::Nearest => extend_along_f64(CellBorder::Nearest, 0, 0, left, n, right, line),
        BorderModeF64::Reflect => extend_along_f64(CellBorder::Reflect, 0, 1, left, n, right, line),
        BorderModeF64::Wrap => extend_along_f64(CellBorder::Wrap, 1, 0, left, n, right, line),
    }
}
