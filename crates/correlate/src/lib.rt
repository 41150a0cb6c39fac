// Correlation and convolution of a whole grid with a grid kernel (src/filters/con_corr.rs; SciPy's correlate and
// convolve).
#![tactic(auto)]

ghost use Rattle.std.specs.Prelude.{◌≡◌, true, false, length};
ghost use Rattle.numbers.specs.Number.{answer_number};
ghost use Rattle.numbers.specs.Refusal.{refusal_of, Answers};
ghost use Rattle.border.specs.Modes.{border_of};
ghost use Rattle.window_spec.specs.Origin.{bad_origin};
ghost use Rattle.window_spec.specs.Window.{kernel_left, kernel_right, applied_origin};
ghost use Rattle.direction.specs.Direction.{directed};
ghost use Rattle.correlate_spec.specs.Kernel.{sides_of, side_of_lem, kernel_answer, correlate_z, convolve_z};
ghost use Rattle.correlate_grid.specs.Kernel.{KernelCallNeeds};
ghost use Rattle.correlate_judge_spec.specs.KernelJudge.{kernel_judged};

use border::BorderMode;
use numbers::Refusal;
use window_spec::Origin;

// Fills out with the sums of every window of a kernel of equal sides. The weights are read from the last to the first
// where `backward` is true; the origin is as it is applied.
fn sum_windows(
    data: &[i64],
    shape: &[usize],
    weights: &[i64],
    backward: bool,
    side: usize,
    mode: BorderMode,
    origin: isize,
    out: &mut [i64],
)
    requires { (bad_origin side origin ≡ false) × KernelCallNeeds (border_of mode) shape.now side
        (kernel_left side origin) (kernel_right side origin) weights.now «data».now out.old }
    ensures { out.new ≡ kernel_answer (border_of mode) (kernel_left side origin)
        (sides_of shape.now side) (directed backward weights.now) shape.now
        «data».now }
{
    match window::kernel_origin_check(side, origin) {
        Origin::Refused => {}
        Origin::Pads(left, right) => correlate_grid::correlate_cells(
            data, shape, weights, backward, side, mode, left, right, out,
        ),
    }
}

// Fills out with the answer of an accepted correlation, or, where `convolution` says convolution, with that of the
// weights read backward and the changed origin.
fn correlate_cells(
    data: &[i64],
    shape: &[usize],
    weights: &[i64],
    sides: &[usize],
    mode: BorderMode,
    origin: isize,
    convolution: bool,
    out: &mut [i64],
)
    requires { refusal_of (kernel_judged convolution (border_of mode) origin sides.now weights.now shape.now
        «data».now (length out.old)) ≡ 0 }
    ensures { out.new ≡ correlate_z (border_of mode)
        (applied_origin convolution (side_of_lem sides.now) origin) sides.now
        (directed convolution weights.now) shape.now «data».now }
{
    let side = array::len_of(sides, 0);
    let applied = window::applied_origin(side, origin, convolution);
    sum_windows(data, shape, weights, convolution, side, mode, applied, out);
}

// The sums of each window times the weights of a grid kernel, whose sides are all equal.
//
// * `data` - the cells of the grid.
// * `shape` - the length of each axis.
// * `weights` - the kernel's weights, in row-major order.
// * `sides` - the length of each of the kernel's axes, as many as the grid's.
// * `mode` - the border.
// * `origin` - how far the window is moved along every axis: 0 centres it over the cell, positive values move it to the
//   left.
// * `out` - the lent output, as many cells.
//
// Refuses: 1 (shape), 2 (length), 3 (level), 5 (kernel), 6 (weight), 7 (origin), 9 (constant), 11 (reach). Of the rows
// 1 2 / 3 4 with the kernel 1 0 / 0 10 under Nearest: 11 21 / 31 41.
pub fn correlate(
    data: &[i64],
    shape: &[usize],
    weights: &[i64],
    sides: &[usize],
    mode: BorderMode,
    origin: isize,
    out: &mut [i64],
) -> Result<(), Refusal>
    ensures { Answers (kernel_judged false (border_of mode) origin sides.now weights.now
        shape.now «data».now (length out.old))
        (correlate_z (border_of mode) origin sides.now weights.now shape.now
        «data».now) out.old (answer_number result) out.new }
{
    correlate_judge::judge_kernel(data, shape, weights, sides, mode, origin, false, out.len())?;
    correlate_cells(data, shape, weights, sides, mode, origin, false, out);
    Ok(())
}

// The sums of each window times the weights of a grid kernel that is reversed along every axis: on each axis coordinate
// k of a kernel of that side meets the cell at i + floor(side / 2) + origin - k.
//
// * `data` - the cells of the grid.
// * `shape` - the length of each axis.
// * `weights` - the kernel's weights, in row-major order.
// * `sides` - the length of each of the kernel's axes, as many as the grid's.
// * `mode` - the border.
// * `origin` - how far the window is moved along every axis: 0 centres it over the cell, positive values move it to the
//   right.
// * `out` - the lent output, as many cells.
//
// Refuses: 1 (shape), 2 (length), 3 (level), 5 (kernel), 6 (weight), 7 (origin), 9 (constant), 11 (reach). Of the rows
// 1 2 / 3 4 with the kernel 1 0 / 0 10 under Nearest: 14 24 / 34 44.
pub fn convolve(
    data: &[i64],
    shape: &[usize],
    weights: &[i64],
    sides: &[usize],
    mode: BorderMode,
    origin: isize,
    out: &mut [i64],
) -> Result<(), Refusal>
    ensures { Answers (kernel_judged true (border_of mode) origin sides.now weights.now
        shape.now «data».now (length out.old))
        (convolve_z (border_of mode) origin sides.now weights.now shape.now
        «data».now) out.old (answer_number result) out.new }
{
    correlate_judge::judge_kernel(data, shape, weights, sides, mode, origin, true, out.len())?;
    correlate_cells(data, shape, weights, sides, mode, origin, true, out);
    Ok(())
}
