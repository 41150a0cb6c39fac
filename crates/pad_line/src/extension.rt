// The places before and after the cells in the middle of a line, filled in place from the border.
ghost use Rattle.std.specs.Prelude.{◌≡◌, false, ◌+◌, ◌≤◌, ◌<◌, pos, length};
ghost use Rattle.border.specs.Border.{constant, along};
ghost use Rattle.border.specs.Modes.{border_of};
ghost use Rattle.pad_line.specs.Line.{pad_middle};
ghost use Rattle.border.specs.Reach.{bad_pad};
ghost use Rattle.pad_line.specs.Rims.{RimNeeds};

use crate::steps::copy_steps;
use border::{BorderMode, CellBorder};

// Extends the n cells of the line from place left on by a constant level.
fn extend_constant(c: i64, left: usize, n: usize, right: usize, line: &mut [i64])
    requires { left + n + right ≤ length line.old }
    ensures { line.new ≡ pad_middle (pos 0) (constant c) left n right line.old }
{
    for i in 0..left {
        line[i] = c;
    }
    for j in left + n..left + n + right {
        line[j] = c;
    }
}

// Extends the n cells of the line from place left on by cells among them: each rim is copied by the steps of the
// border. It is called with constants for these, of which the compiler makes a loop for each border.
fn extend_along(
    mode: CellBorder,
    up: usize,
    down: usize,
    left: usize,
    n: usize,
    right: usize,
    line: &mut [i64],
)
    requires { RimNeeds mode up down left n right (length line.old) }
    ensures { line.new ≡ pad_middle (pos 0) (along mode) left n right line.old }
{
    let before = left + border::cell_before(mode, n, left);
    copy_steps(up, down, before, 0, left, line);
    let after = left + border::cell_after(mode, n, 1);
    copy_steps(up, down, after, left + n, right, line);
}

// Extends the n cells of the line from place left on by the border.
pub(crate) fn extend(mode: BorderMode, left: usize, n: usize, right: usize, line: &mut [i64])
    requires { (0 < n) × (left + n + right ≤ length line.old) × (bad_pad (border_of mode) n left ≡ false)
        × (bad_pad (border_of mode) n right ≡ false) }
    ensures { line.new ≡ pad_middle (pos 0) (border_of mode) left n right line.old }
{
    match mode {
        BorderMode::Constant(c) => extend_constant(c, left, n, right, line),
        BorderMode::Mirror => extend_along(CellBorder::Mirror, 0, 1, left, n, right, line),
        BorderMode::Nearest => extend_along(CellBorder::Nearest, 0, 0, left, n, right, line),
        BorderMode::Reflect => extend_along(CellBorder::Reflect, 0, 1, left, n, right, line),
        BorderMode::Wrap => extend_along(CellBorder::Wrap, 1, 0, left, n, right, line),
    }
}
