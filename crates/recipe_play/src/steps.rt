// The steps of a recipe: all judged, then all played.
ghost use Rattle.std.specs.Prelude.{◌≡◌, ◌≤◌, ◌-◌, ◌%◌, length, take};
ghost use Rattle.numbers.specs.Number.{answer_number};
ghost use Rattle.numbers.specs.Refusal.{refusal_of};
ghost use Rattle.min_max_spec.specs.Call.{grid_number};
ghost use Rattle.recipe_spec.specs.Player.{played};
ghost use Rattle.recipe_spec.specs.Before.{windows_judged};

use crate::step::{judge_step, step_pass};
use numbers::Refusal;
use recipe_spec::Step;

// The number of the first step that is refused, or 0; no level is read.
pub(crate) fn judge_steps(count: u8, steps: [Step; 16], shape: &[usize]) -> Result<(), Refusal>
    requires { count ≤ 16 }
    ensures { answer_number result ≡ refusal_of (windows_judged shape.now (take count steps)) }
{
    for k in 0..usize::from(count) {
        judge_step(steps[k], shape)?;
    }
    Ok(())
}

// Plays the first step, and the second where the count is even, so that an even number is left; out has the levels.
// Says how many were played.
fn first_steps(
    n: usize,
    steps: [Step; 16],
    data: &[i64],
    shape: &[usize],
    second: &mut [i64],
    out: &mut [i64],
) -> usize
    requires { (1 ≤ n) × (n ≤ 16) × (grid_number shape.now «data».now ≡ 0)
        × (refusal_of (windows_judged shape.now (take n steps)) ≡ 0)
        × (length second.old ≡ length «data».now) × (length out.old ≡ length «data».now) }
    ensures { (result ≤ n) × ((n - result) % 2 ≡ 0) × (length second.new ≡ length «data».now)
        × (out.new ≡ played shape.now (take result (take n steps)) «data».now) }
{
    if n % 2 == 1 {
        step_pass(steps[0], data, shape, out);
        return 1;
    }
    step_pass(steps[0], data, shape, second);
    step_pass(steps[1], second, shape, out);
    2
}

// Plays the steps, into out and by way of second.
pub(crate) fn play_steps(
    count: u8,
    steps: [Step; 16],
    data: &[i64],
    shape: &[usize],
    second: &mut [i64],
    out: &mut [i64],
)
    requires { (1 ≤ count) × (count ≤ 16) × (grid_number shape.now «data».now ≡ 0)
        × (refusal_of (windows_judged shape.now (take count steps)) ≡ 0)
        × (length second.old ≡ length «data».now) × (length out.old ≡ length «data».now) }
    ensures { out.new ≡ played shape.now (take count steps) «data».now }
{
    let n = usize::from(count);
    let mut k = first_steps(n, steps, data, shape, second, out);
    // Two steps a turn, by way of second; a for over every second place is no plainer.
    while k < n {
        step_pass(steps[k], out, shape, second);
        step_pass(steps[k + 1], second, shape, out);
        k += 2;
    }
}
