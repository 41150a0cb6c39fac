// Correlation of a whole grid with a grid kernel, row by row: no padded copy of the grid.
#![tactic(auto)]

ghost use Rattle.std.specs.Prelude.{◌≡◌};
ghost use Rattle.border.specs.Modes.{border_of};
ghost use Rattle.direction.specs.Direction.{directed};
ghost use Rattle.correlate_spec.specs.Kernel.{sides_of, kernel_answer};
ghost use Rattle.correlate_grid.specs.Kernel.{KernelCallNeeds};
ghost use Rattle.correlate_grid.specs.Rows.{CorrelateGridRows};

use border::BorderMode;

mod cells;

// Fills out with the correlation of data with a kernel of as many axes, all of `side` cells: left and right are the
// pads of every axis. Where `backward` is true the weights are taken from the last to the first, which turns the kernel
// around on every axis.
pub fn correlate_cells(
    data: &[i64],
    shape: &[usize],
    weights: &[i64],
    backward: bool,
    side: usize,
    mode: BorderMode,
    left: usize,
    right: usize,
    out: &mut [i64],
)
    requires { KernelCallNeeds (border_of mode) shape.now side left right weights.now «data».now out.old }
    ensures { out.new ≡ kernel_answer (border_of mode) left (sides_of shape.now side)
        (directed backward weights.now) shape.now «data».now }
{
    let axes = correlate_grid_axes::axes_of(shape, side, left, right);
    cells::correlate_three(data, weights, backward, mode, axes, out);
}

// Worked rows of this crate's definitions.
pub fn rows()
    ensures { CorrelateGridRows }
{}
