// One step: its judge and its pass.
ghost use Rattle.std.specs.Prelude.{◌≡◌, length};
ghost use Rattle.numbers.specs.Number.{answer_number};
ghost use Rattle.numbers.specs.Refusal.{refusal_of};
ghost use Rattle.min_max_axis.specs.Lane.{order_of};
ghost use Rattle.recipe_spec.specs.Player.{step_mode, step_order, step_judged, step_answer};
ghost use Rattle.recipe_spec.specs.Before.{window_of_step};

use border::BorderMode;
use min_max::Extreme;
use numbers::Refusal;
use recipe_spec::Step;

// The border of a step. Border 0 with constant -7 is Constant(-7).
fn mode_of(s: Step) -> BorderMode
    ensures { result ≡ step_mode s }
{
    codes::mode_of(s.border, i64::from(s.constant))
}

// What the step's window refuses, in rising order: the number of the first condition that holds, or 0.
pub(crate) fn judge_step(s: Step, shape: &[usize]) -> Result<(), Refusal>
    ensures { answer_number result ≡ refusal_of (window_of_step shape.now s) }
{
    let size = usize::from(s.length);
    let axis = usize::from(s.axis);
    let mode = mode_of(s);
    if s.kind == 2 {
        return uniform::judge_along(shape, size, axis, mode);
    }
    min_max_judge::judge_window(shape, size, axis, mode, isize::from(s.origin))
}

// Which level a step of kind 0 or 1 keeps.
fn extreme_of(s: Step) -> Extreme
    ensures { order_of result ≡ step_order s }
{
    match s.kind {
        0 => Extreme::Least,
        _ => Extreme::Greatest,
    }
}

// Fills out with what the step's call fills of data.
pub(crate) fn step_pass(s: Step, data: &[i64], shape: &[usize], out: &mut [i64])
    requires { (refusal_of (step_judged shape.now s «data».now) ≡ 0)
        × (length out.old ≡ length «data».now) }
    ensures { out.new ≡ step_answer shape.now s «data».now }
{
    let size = usize::from(s.length);
    let axis = usize::from(s.axis);
    let mode = mode_of(s);
    if s.kind == 2 {
        uniform::pass(data, shape, size, axis, mode, out);
        return;
    }
    let extreme = extreme_of(s);
    min_max::pass(
        extreme,
        data,
        shape,
        size,
        axis,
        mode,
        isize::from(s.origin),
        out,
    );
}
