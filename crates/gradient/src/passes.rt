// The passes of a gradient: the difference along an axis, then along every other axis the smoothing.
ghost use Rattle.std.specs.Prelude.{◌≡◌, pos, length};
ghost use Rattle.numbers.specs.Refusal.{refusal_of};
ghost use Rattle.border.specs.Axes.{borders_of};
ghost use Rattle.correlate_spec.specs.Correlated.{correlate1d_z};
ghost use Rattle.correlate1d.specs.WeighNeeds.{WeighNeeds};
ghost use Rattle.gradient_spec.specs.Gradient.{gradient};
ghost use Rattle.gradient_spec.specs.Judge.{gradient_judged, ThreeSmall};
ghost use Rattle.gradient.specs.Others.{first_other, last_other};
ghost use Rattle.gradient.specs.Rows.{GradientRows};

use border::BorderMode;

// The first axis beside the given one.
fn first_other(axis: usize) -> usize
    ensures { result ≡ first_other axis }
{
    if axis == 0 { 1 } else { 0 }
}

// The last axis of three beside the given one.
fn last_other(axis: usize) -> usize
    ensures { result ≡ last_other axis }
{
    if axis == 2 { 1 } else { 2 }
}

// Fills out with one pass along an axis, which has that axis's border.
fn pass_along(
    data: &[i64],
    shape: &[usize],
    weights: &[i64],
    axis: usize,
    modes: [BorderMode; 3],
    out: &mut [i64],
)
    requires { WeighNeeds (borders_of modes axis) shape.now axis (pos 0) weights.now «data».now out.old }
    ensures { out.new ≡ correlate1d_z (borders_of modes axis) (pos 0) weights.now
        shape.now axis «data».now }
{
    let mode = border::mode_on(modes, axis);
    correlate1d::weigh(data, shape, weights, false, axis, mode, 0, out);
}

// Fills out with the answer of an accepted call; second holds what a pass between leaves.
pub(crate) fn passes(
    smooth: &[i64],
    data: &[i64],
    shape: &[usize],
    axis: usize,
    modes: [BorderMode; 3],
    second: &mut [i64],
    out: &mut [i64],
)
    requires { ThreeSmall smooth.now × (refusal_of
        (gradient_judged smooth.now (borders_of modes) shape.now axis «data».now (length out.old)
        (length second.old)) ≡ 0) }
    ensures { out.new ≡ gradient smooth.now (borders_of modes) shape.now axis
        «data».now }
{
    let difference = [-1, 0, 1];
    let axes = shape.len();
    if axes == 1 {
        pass_along(data, shape, &difference, axis, modes, out);
        return;
    }
    let first = first_other(axis);
    if axes == 2 {
        pass_along(data, shape, &difference, axis, modes, second);
        pass_along(second, shape, smooth, first, modes, out);
        return;
    }
    let last = last_other(axis);
    pass_along(data, shape, &difference, axis, modes, out);
    pass_along(out, shape, smooth, first, modes, second);
    pass_along(second, shape, smooth, last, modes, out);
}

// Worked rows of this crate's definitions: the axes beside each axis.
pub fn rows()
    ensures { GradientRows }
{}
