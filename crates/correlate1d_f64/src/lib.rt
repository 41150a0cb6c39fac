// Correlation and convolution of floats along an axis, bit for bit in the order of their roundings
// (src/filters/con_corr.rs; SciPy's correlate1d and convolve1d).
#![tactic(auto)]

ghost use Rattle.std.specs.Prelude.{◌≡◌, true, false, map, length};
ghost use Rattle.std.specs.Float.{binary64};
ghost use Rattle.std.specs.Float.Ieee.{mul};
ghost use Rattle.numbers.specs.Number.{answer_number};
ghost use Rattle.numbers.specs.Refusal.{refusal_of, Answers};
ghost use Rattle.border.specs.Modes.{border_of_f64};
ghost use Rattle.window_spec.specs.Window.{applied_origin};
ghost use Rattle.direction.specs.Direction.{directed};
ghost use Rattle.correlate_spec.specs.Correlated.{correlate1d_f};
ghost use Rattle.correlate_spec.specs.Convolved.{convolve1d_f};
ghost use Rattle.correlate_judge_spec.specs.Judge.{correlate_judged_f};
ghost use Rattle.correlate1d.specs.WeighNeeds.{PlaceNeeds};

use border::BorderModeF64;
use numbers::Refusal;
use window_spec::Origin;

// Every cell times one weight.
fn scale(data: &[f64], weight: f64, out: &mut [f64])
    requires { length out.old ≡ length «data».now }
    ensures { out.new ≡ map (λ x. mul binary64 x weight) «data».now }
{
    for i in 0..out.len() {
        out[i] = data[i] * weight;
    }
}

// Fills out with the weighted sums along the axis. The weights are read from the last to the first where `backward` is
// true, their class too; the origin is as it is applied.
fn weigh(
    data: &[f64],
    shape: &[usize],
    weights: &[f64],
    backward: bool,
    axis: usize,
    mode: BorderModeF64,
    origin: isize,
    out: &mut [f64],
)
    requires { PlaceNeeds (border_of_f64 mode) shape.now axis origin weights.now «data».now out.old }
    ensures { out.new ≡ correlate1d_f (border_of_f64 mode) origin (directed backward weights.now)
        shape.now axis «data».now }
{
    match window::origin_check(weights.len(), origin) {
        Origin::Refused => {}
        Origin::Pads(left, right) => correlate_axis_f64::correlate_axis_f64(
            weights,
            backward,
            symmetry::directed_state_f64(weights, backward),
            mode,
            data,
            shape,
            axis,
            left,
            right,
            out,
        ),
    }
}

// Fills out with the answer of an accepted correlation, or, where `convolution` says convolution, with that of the
// weights read backward and the changed origin.
fn correlate_cells(
    data: &[f64],
    shape: &[usize],
    weights: &[f64],
    axis: usize,
    mode: BorderModeF64,
    origin: isize,
    convolution: bool,
    out: &mut [f64],
)
    requires { refusal_of (correlate_judged_f convolution (border_of_f64 mode) origin weights.now shape.now axis
        «data».now (length out.old)) ≡ 0 }
    ensures { out.new ≡ correlate1d_f (border_of_f64 mode)
        (applied_origin convolution (length weights.now) origin)
        (directed convolution weights.now) shape.now axis «data».now }
{
    if weights.len() == 1 {
        scale(data, weights[0], out);
        return;
    }
    let applied = window::applied_origin(weights.len(), origin, convolution);
    weigh(data, shape, weights, convolution, axis, mode, applied, out);
}

// The sums of each window times the weights, along an axis, each operation rounded in the order that the class of the
// weights names. With one weight every cell is multiplied by it, and the origin is not read.
//
// * `data` - the cells of the grid.
// * `shape` - the length of each axis.
// * `weights` - the weights.
// * `axis` - the axis along which the windows lie.
// * `mode` - the border.
// * `origin` - how far the window is moved: 0 centres it over the cell, positive values move it to the left.
// * `out` - the lent output, as many cells.
//
// All NaNs count as one: where an answer is a NaN the cell is a NaN, and its bits are open.
//
// Refuses: 1 (shape), 2 (length), 3 (level), 5 (kernel), 6 (weight), 7 (origin), 8 (axis), 9 (constant), 11 (reach). Of
// 0 0 1 with the weights 1, 2, 1 + 2^-52 under Constant(0.0) cell 1 is exactly 1: the weights count as Symmetric, and
// the right one is not read.
pub fn correlate1d_f64(
    data: &[f64],
    shape: &[usize],
    weights: &[f64],
    axis: usize,
    mode: BorderModeF64,
    origin: isize,
    out: &mut [f64],
) -> Result<(), Refusal>
    ensures { Answers (correlate_judged_f false (border_of_f64 mode) origin weights.now
        shape.now axis «data».now (length out.old))
        (correlate1d_f (border_of_f64 mode) origin weights.now shape.now axis «data».now)
        out.old (answer_number result) out.new }
{
    correlate_judge::judge_correlate_f64(
        data,
        shape,
        weights,
        axis,
        mode,
        origin,
        false,
        out.len(),
    )?;
    correlate_cells(data, shape, weights, axis, mode, origin, false, out);
    Ok(())
}

// The sums of each window times the weights from the last to the first, along an axis: weight j of len meets the cell
// at i + floor(len / 2) + origin - j. Each operation is rounded in the order that the class of the weights names, read
// from the last to the first. With one weight every cell is multiplied by it, and the origin is not read.
//
// * `data` - the cells of the grid.
// * `shape` - the length of each axis.
// * `weights` - the weights.
// * `axis` - the axis along which the windows lie.
// * `mode` - the border.
// * `origin` - how far the window is moved: 0 centres it over the cell, positive values move it to the right.
// * `out` - the lent output, as many cells.
//
// All NaNs count as one: where an answer is a NaN the cell is a NaN, and its bits are open.
//
// Refuses: 1 (shape), 2 (length), 3 (level), 5 (kernel), 6 (weight), 7 (origin), 8 (axis), 9 (constant), 11 (reach). Of
// 0 0 1 with the weights 1, 2, 1 + 2^-52 under Constant(0.0) cell 1 is 1 + 2^-52: of the pair of weights
// that count as equal the last one is read.
pub fn convolve1d_f64(
    data: &[f64],
    shape: &[usize],
    weights: &[f64],
    axis: usize,
    mode: BorderModeF64,
    origin: isize,
    out: &mut [f64],
) -> Result<(), Refusal>
    ensures { Answers (correlate_judged_f true (border_of_f64 mode) origin weights.now
        shape.now axis «data».now (length out.old))
        (convolve1d_f (border_of_f64 mode) origin weights.now shape.now axis «data».now)
        out.old (answer_number result) out.new }
{
    correlate_judge::judge_correlate_f64(
        data,
        shape,
        weights,
        axis,
        mode,
        origin,
        true,
        out.len(),
    )?;
    correlate_cells(data, shape, weights, axis, mode, origin, true, out);
    Ok(())
}
