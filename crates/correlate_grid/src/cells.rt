// The rows of the kernel on each row of the grid, one after the other. Row s of plane p is row p * rows + s, and row j
// of kernel plane i is kernel row i * side + j.
ghost use Rattle.std.specs.Prelude.{◌≡◌, ◌+◌, ◌*◌, ◌/◌, ◌%◌, ◌<◌, length};
ghost use Rattle.numbers.specs.Lists.{tabulate};
ghost use Rattle.border.specs.Modes.{border_of};
ghost use Rattle.direction.specs.Direction.{directed};
ghost use Rattle.correlate_grid_axes.specs.Axes.{KernelNeeds};
ghost use Rattle.correlate_grid_row.specs.ByRows.{Mapped, rows_to, RowSumNeeds};

use border::BorderMode;
use correlate_grid_axes::{Axes, find_sources};
use correlate_grid_row::{add_kernel_row, row_for};

// Adds the sums of kernel plane i to those of row s of plane p. The tables have the sources of planes and rows; line is
// a buffer.
fn add_kernel_plane(
    data: &[i64],
    weights: &[i64],
    backward: bool,
    mode: BorderMode,
    axes: Axes,
    first: &[i64],
    second: &[i64],
    p: usize,
    s: usize,
    i: usize,
    line: &mut [i64],
    out: &mut [i64],
)
    requires { Mapped (border_of mode) axes.planes axes.rows axes.cells weights.now «data».now first.now
        second.now × (p < axes.planes.len) × (s < axes.rows.len) × (i < axes.planes.side)
        × RowSumNeeds (border_of mode) axes.planes axes.rows axes.cells (directed backward weights.now)
        «data».now (p * axes.rows.len + s) (i * axes.rows.side) line.old out.old }
    ensures { out.new ≡ tabulate (rows_to (border_of mode) axes.planes axes.rows axes.cells
        (directed backward weights.now) «data».now (p * axes.rows.len + s)
        ((i + 1) * axes.rows.side)) 0 axes.cells.len }
{
    let plane = first[p + i];
    let per = axes.rows.len;
    let none = axes.planes.len * per;
    let side = axes.rows.side;
    let q = i * side;
    for j in 0..side {
        let row = row_for(plane, second[s + j], per, none);
        add_kernel_row(data, weights, backward, mode, axes, row, q + j, line, out);
    }
}

// Sets out to the sums of row s of plane p.
fn correlate_row(
    data: &[i64],
    weights: &[i64],
    backward: bool,
    mode: BorderMode,
    axes: Axes,
    first: &[i64],
    second: &[i64],
    p: usize,
    s: usize,
    line: &mut [i64],
    out: &mut [i64],
)
    requires { Mapped (border_of mode) axes.planes axes.rows axes.cells weights.now «data».now first.now
        second.now × (p < axes.planes.len) × (s < axes.rows.len)
        × (length line.old ≡ axes.cells.left + axes.cells.len + axes.cells.right)
        × (length out.old ≡ axes.cells.len) }
    ensures { out.new ≡ tabulate (rows_to (border_of mode) axes.planes axes.rows axes.cells
        (directed backward weights.now) «data».now (p * axes.rows.len + s)
        (axes.planes.side * axes.rows.side)) 0 axes.cells.len }
{
    array::fill(out, 0);
    let count = axes.planes.side;
    for i in 0..count {
        add_kernel_plane(
            data, weights, backward, mode, axes, first, second, p, s, i, line, out,
        );
    }
}

// Sets out to the sums of every row.
fn correlate_rows(
    data: &[i64],
    weights: &[i64],
    backward: bool,
    mode: BorderMode,
    axes: Axes,
    first: &[i64],
    second: &[i64],
    line: &mut [i64],
    out: &mut [i64],
)
    requires { Mapped (border_of mode) axes.planes axes.rows axes.cells weights.now «data».now first.now
        second.now × (length line.old ≡ axes.cells.left + axes.cells.len + axes.cells.right)
        × (length out.old ≡ length «data».now) }
    ensures { out.new ≡ tabulate (λ k. rows_to (border_of mode) axes.planes axes.rows axes.cells
        (directed backward weights.now) «data».now (k / axes.cells.len)
        (axes.planes.side * axes.rows.side) (k % axes.cells.len)) 0 (length «data».now) }
{
    let per = axes.rows.len;
    let count = axes.planes.len * per;
    let n = axes.cells.len;
    for r in 0..count {
        let a = r * n;
        let e = a + n;
        correlate_row(
            data,
            weights,
            backward,
            mode,
            axes,
            first,
            second,
            r / per,
            r % per,
            line,
            &mut out[a..e],
        );
    }
}

// The same, with buffers of its own: the sources of planes and rows, and the line.
pub(crate) fn correlate_three(
    data: &[i64],
    weights: &[i64],
    backward: bool,
    mode: BorderMode,
    axes: Axes,
    out: &mut [i64],
)
    requires { KernelNeeds (border_of mode) axes.planes axes.rows axes.cells weights.now «data».now
        × (length out.old ≡ length «data».now) }
    ensures { out.new ≡ tabulate (λ k. rows_to (border_of mode) axes.planes axes.rows axes.cells
        (directed backward weights.now) «data».now (k / axes.cells.len)
        (axes.planes.side * axes.rows.side) (k % axes.cells.len)) 0 (length «data».now) }
{
    let planes = axes.planes;
    let mut first = [0; numbers::LONGEST_LINE];
    find_sources(mode, planes, &mut first);
    let rows = axes.rows;
    let mut second = [0; numbers::LONGEST_LINE];
    find_sources(mode, rows, &mut second);
    let mut line = [0; numbers::LONGEST_LINE];
    let total = axes.cells.left + axes.cells.len + axes.cells.right;
    correlate_rows(
        data,
        weights,
        backward,
        mode,
        axes,
        &first,
        &second,
        &mut line[..total],
        out,
    );
}
