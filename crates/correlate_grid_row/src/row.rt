// One row of the kernel on one row of the grid: the row that it reads, padded, and the sums along it.
ghost use Rattle.std.specs.Prelude.{◌≡◌, ◌+◌, ◌*◌, ◌≤◌, pos, nat_abs, ◌+ℤ◌, length, get_or};
ghost use Rattle.numbers.specs.Limits.{longest_axis, most_cells};
ghost use Rattle.numbers.specs.Lists.{tabulate};
ghost use Rattle.border.specs.Modes.{border_of};
ghost use Rattle.direction.specs.Direction.{directed};
ghost use Rattle.correlate_grid_axes.specs.Axes.{Serves, KernelNeeds};
ghost use Rattle.correlate_grid_row.specs.ByRows.{row_for, constant_of, row_line, row_start, line_sum, Reading};

use border::BorderMode;
use correlate_grid_axes::{Axes, Axis};

// The row of two sources, with `per` rows in a plane; `none` where one of them is −1.
pub fn row_for(i: i64, j: i64, per: usize, none: usize) -> usize
    requires { (nat_abs i ≤ longest_axis) × (nat_abs j ≤ longest_axis) × (per ≤ longest_axis) }
    ensures { result ≡ row_for i j per none }
{
    if i < 0 {
        return none;
    }
    if j < 0 {
        return none;
    }
    let a = i as usize;
    let b = j as usize;
    a * per + b
}

// The border's constant.
fn constant_of(mode: BorderMode) -> i64
    ensures { result ≡ constant_of (border_of mode) }
{
    match mode {
        BorderMode::Constant(c) => c,
        BorderMode::Mirror => 0,
        BorderMode::Nearest => 0,
        BorderMode::Reflect => 0,
        BorderMode::Wrap => 0,
    }
}

// Sets the line to the padded row, or to the constant where there is no row.
fn load_row(data: &[i64], mode: BorderMode, axis: Axis, none: usize, row: usize, line: &mut [i64])
    requires { Serves (border_of mode) axis × (length «data».now ≤ most_cells)
        × ((row ≡ none → ⊥) → row * axis.len + axis.len ≤ length «data».now)
        × (length line.old ≡ axis.left + axis.len + axis.right) }
    ensures { line.new ≡ row_line (border_of mode) axis none row «data».now }
{
    if row == none {
        array::fill(line, constant_of(mode));
        return;
    }
    let n = axis.len;
    pad_line::pad_from(data, row * n, 1, n, mode, axis.left, axis.right, line);
}

// Where the kernel row that starts at weight a in the direction starts among the caller's `count` weights.
fn row_start(count: usize, backward: bool, a: usize, side: usize) -> usize
    requires { a + side ≤ count }
    ensures { result ≡ row_start backward count a side }
{
    if backward {
        return count - a - side;
    }
    a
}

// Adds the sums of kernel row q to those of a row of the grid: row is the row that it reads, line a buffer.
pub fn add_kernel_row(
    data: &[i64],
    weights: &[i64],
    backward: bool,
    mode: BorderMode,
    axes: Axes,
    row: usize,
    q: usize,
    line: &mut [i64],
    out: &mut [i64],
)
    requires { KernelNeeds (border_of mode) axes.planes axes.rows axes.cells weights.now «data».now
        × Reading axes.planes axes.rows axes.cells row q line.old out.old }
    ensures { out.new ≡ tabulate (λ i. get_or out.old i (pos 0) +ℤ line_sum (border_of mode)
        axes.planes axes.rows axes.cells (directed backward weights.now) «data».now row
        q i) 0 axes.cells.len }
{
    let cells = axes.cells;
    load_row(
        data,
        mode,
        cells,
        axes.planes.len * axes.rows.len,
        row,
        line,
    );
    let side = cells.side;
    let a = row_start(weights.len(), backward, q * side, side);
    let e = a + side;
    correlate_line::add_line(&weights[a..e], backward, line, out);
}
