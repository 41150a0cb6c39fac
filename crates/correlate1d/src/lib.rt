// Correlation and convolution of whole levels along an axis (src/filters/con_corr.rs; SciPy's correlate1d and
// convolve1d).
#![tactic(auto)]

ghost use Rattle.std.specs.Prelude.{◌≡◌, true, false, map, ◌*ℤ◌, length};
ghost use Rattle.numbers.specs.Number.{answer_number};
ghost use Rattle.numbers.specs.Refusal.{refusal_of, Answers};
ghost use Rattle.border.specs.Modes.{border_of};
ghost use Rattle.window_spec.specs.Window.{applied_origin};
ghost use Rattle.direction.specs.Direction.{directed};
ghost use Rattle.correlate_spec.specs.Correlated.{correlate1d_z};
ghost use Rattle.correlate_spec.specs.Convolved.{convolve1d_z};
ghost use Rattle.correlate_judge_spec.specs.Judge.{correlate_judged};
ghost use Rattle.correlate1d.specs.Rows.{Correlate1dRows};
ghost use Rattle.correlate1d.specs.WeighNeeds.{ScaleNeeds, WeighNeeds};

use border::BorderMode;
use numbers::Refusal;
use window_spec::Origin;

// Every cell times one weight.
fn scale(data: &[i64], weight: i64, out: &mut [i64])
    requires { ScaleNeeds «data».now weight out.old }
    ensures { out.new ≡ map (λ x. x *ℤ weight) «data».now }
{
    for i in 0..out.len() {
        out[i] = data[i] * weight;
    }
}

// Fills out with the weighted sums along the axis. The weights are read from the last to the first where `backward` is
// true; the origin is as it is applied.
pub fn weigh(
    data: &[i64],
    shape: &[usize],
    weights: &[i64],
    backward: bool,
    axis: usize,
    mode: BorderMode,
    origin: isize,
    out: &mut [i64],
)
    requires { WeighNeeds (border_of mode) shape.now axis origin weights.now «data».now out.old }
    ensures { out.new ≡ correlate1d_z (border_of mode) origin (directed backward weights.now)
        shape.now axis «data».now }
{
    match window::origin_check(weights.len(), origin) {
        Origin::Refused => {}
        Origin::Pads(left, right) => correlate_axis::correlate_axis(
            weights, backward, mode, data, shape, axis, left, right, out,
        ),
    }
}

// Fills out with the answer of an accepted correlation, or, where `convolution` says convolution, with that of the
// weights read backward and the changed origin.
fn correlate_cells(
    data: &[i64],
    shape: &[usize],
    weights: &[i64],
    axis: usize,
    mode: BorderMode,
    origin: isize,
    convolution: bool,
    out: &mut [i64],
)
    requires { refusal_of (correlate_judged convolution (border_of mode) origin weights.now shape.now axis
        «data».now (length out.old)) ≡ 0 }
    ensures { out.new ≡ correlate1d_z (border_of mode)
        (applied_origin convolution (length weights.now) origin)
        (directed convolution weights.now) shape.now axis «data».now }
{
    if weights.len() == 1 {
        scale(data, weights[0], out);
        return;
    }
    let applied = window::applied_origin(weights.len(), origin, convolution);
    weigh(data, shape, weights, convolution, axis, mode, applied, out);
}

// The sums of each window times the weights, along an axis. With one weight every cell is multiplied by it, and the
// origin is not read.
//
// * `data` - the cells of the grid.
// * `shape` - the length of each axis.
// * `weights` - the weights.
// * `axis` - the axis along which the windows lie.
// * `mode` - the border.
// * `origin` - how far the window is moved: 0 centres it over the cell, positive values move it to the left.
// * `out` - the lent output, as many cells.
//
// Refuses: 1 (shape), 2 (length), 3 (level), 5 (kernel), 6 (weight), 7 (origin), 8 (axis), 9 (constant), 11 (reach). Of
// 1 2 3 with the weights 1 2 3 under Nearest: 9 14 17.
pub fn correlate1d(
    data: &[i64],
    shape: &[usize],
    weights: &[i64],
    axis: usize,
    mode: BorderMode,
    origin: isize,
    out: &mut [i64],
) -> Result<(), Refusal>
    ensures { Answers (correlate_judged false (border_of mode) origin weights.now shape.now
        axis «data».now (length out.old))
        (correlate1d_z (border_of mode) origin weights.now shape.now axis «data».now)
        out.old (answer_number result) out.new }
{
    correlate_judge::judge_correlate(data, shape, weights, axis, mode, origin, false, out.len())?;
    correlate_cells(data, shape, weights, axis, mode, origin, false, out);
    Ok(())
}

// The sums of each window times the weights from the last to the first, along an axis: weight j of len meets the cell
// at i + floor(len / 2) + origin - j. With one weight every cell is multiplied by it, and the origin is not read.
//
// * `data` - the cells of the grid.
// * `shape` - the length of each axis.
// * `weights` - the weights.
// * `axis` - the axis along which the windows lie.
// * `mode` - the border.
// * `origin` - how far the window is moved: 0 centres it over the cell, positive values move it to the right.
// * `out` - the lent output, as many cells.
//
// Refuses: 1 (shape), 2 (length), 3 (level), 5 (kernel), 6 (weight), 7 (origin), 8 (axis), 9 (constant), 11 (reach). Of
// 1 2 3 with the weights 1 2 3 under Nearest: 7 10 15.
pub fn convolve1d(
    data: &[i64],
    shape: &[usize],
    weights: &[i64],
    axis: usize,
    mode: BorderMode,
    origin: isize,
    out: &mut [i64],
) -> Result<(), Refusal>
    ensures { Answers (correlate_judged true (border_of mode) origin weights.now shape.now
        axis «data».now (length out.old))
        (convolve1d_z (border_of mode) origin weights.now shape.now axis «data».now)
        out.old (answer_number result) out.new }
{
    correlate_judge::judge_correlate(data, shape, weights, axis, mode, origin, true, out.len())?;
    correlate_cells(data, shape, weights, axis, mode, origin, true, out);
    Ok(())
}

// Worked rows of this crate's definitions.
pub fn rows()
    ensures { Correlate1dRows }
{}
