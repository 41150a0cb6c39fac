// The judge of the minimum and maximum filters: the conditions of the one-axis and the grid forms, in rising order.
#![tactic(auto)]

ghost use Rattle.std.specs.Prelude.{◌≡◌, []};
ghost use Rattle.numbers.specs.Number.{answer_number};
ghost use Rattle.numbers.specs.Refusal.{refusal_of};
ghost use Rattle.min_max_spec.specs.Call.{window_judged, call_judged};
ghost use Rattle.min_max_judge.specs.Judge.{call_of, grid_call_of, size_judged, filter_axes_judged, filter_judged};
ghost use Rattle.min_max_judge.specs.Rows.{MinMaxJudgeRows};

use border::BorderMode;
use numbers::Refusal;

// Conditions 5 and 7, which every window has.
fn judge_size(size: usize, origin: isize) -> Result<(), Refusal>
    ensures { answer_number result ≡ refusal_of (size_judged size origin) }
{
    if window::bad_size(size) {
        return Err(Refusal::Kernel);
    }
    if window::bad_window_origin(size, origin) {
        return Err(Refusal::Origin);
    }
    Ok(())
}

// Conditions 5, 7, 8, 9 and 11 of a window along one axis, in rising order: the number of the first that holds, or 0.
//
// * `shape` - the length of each axis.
// * `size`, `axis`, `mode`, `origin` - as in `judge_call`.
//
// Refuses: 5 (kernel), 7 (origin), 8 (axis), 9 (constant), 11 (reach). Of 3 cells size 7 under Mirror and origin 0
// gives 11.
pub fn judge_window(
    shape: &[usize],
    size: usize,
    axis: usize,
    mode: BorderMode,
    origin: isize,
) -> Result<(), Refusal>
    ensures { answer_number result ≡ refusal_of (window_judged (call_of shape.now size axis mode origin [])) }
{
    judge_size(size, origin)?;
    if array::bad_axis(shape, axis) {
        return Err(Refusal::Axis);
    }
    if border::bad_constant(mode) {
        return Err(Refusal::Constant);
    }
    let n = array::len_of(shape, axis);
    if window::bad_reach(mode, n, size, origin) {
        return Err(Refusal::Reach);
    }
    Ok(())
}

// The number of a one-axis call, which fills out where that is 0.
//
// * `data` - the cells of the grid, in row-major order.
// * `shape` - the length of each axis.
// * `size` - the length of the window; with 1 no origin is read and no pad is needed.
// * `axis` - the axis that is swept.
// * `mode` - the border.
// * `origin` - how far the window is moved.
// * `out` - the lent output; only its length is judged.
//
// Refuses: 1 (shape), 2 (length), 3 (level), 5 (kernel), 7 (origin), 8 (axis), 9 (constant), 11 (reach). The rows 5 3 /
// 4 9 with size 2 under Nearest and origin 1 give 7, along axis 2 with origin 0 they give 8.
pub fn judge_call(
    data: &[i64],
    shape: &[usize],
    size: usize,
    axis: usize,
    mode: BorderMode,
    origin: isize,
    out: &[i64],
) -> Result<(), Refusal>
    ensures { answer_number result ≡ refusal_of (call_judged «data».now
        (call_of shape.now size axis mode origin out.now)) }
{
    array::judge_grid(data, shape, &[out.len()])?;
    judge_window(shape, size, axis, mode, origin)
}

// Conditions 5, 7, 9 and 11 of a window along every axis, each with its own border.
fn judge_axes(
    shape: &[usize],
    size: usize,
    modes: [BorderMode; 3],
    origin: isize,
) -> Result<(), Refusal>
    ensures { answer_number result ≡ refusal_of (filter_axes_judged (grid_call_of shape.now size modes origin [])) }
{
    judge_size(size, origin)?;
    if border::bad_constant_any(modes, shape) {
        return Err(Refusal::Constant);
    }
    if window::bad_reach_any(modes, shape, size, origin) {
        return Err(Refusal::Reach);
    }
    Ok(())
}

// The number of a grid call, which sweeps every axis and fills out where that is 0.
//
// * `data`, `shape`, `origin` - as in `judge_call`.
// * `size` - the length of the window on every axis.
// * `modes` - the border of each axis; those past the axis count are not read.
// * `out` - the lent output; only its length is judged.
// * `second` - how many cells the second lent grid has.
//
// Refuses: 1 (shape), 2 (length), 3 (level), 5 (kernel), 7 (origin), 9 (constant), 11 (reach). The rows 5 3 / 4 9 with
// size 5 and origin 0 give 11 where one of the first two borders is Mirror, and 0 where only the third is; with size 2
// and a second grid of 3 cells they give 2.
pub fn judge_filter(
    data: &[i64],
    shape: &[usize],
    size: usize,
    modes: [BorderMode; 3],
    origin: isize,
    out: &[i64],
    second: usize,
) -> Result<(), Refusal>
    ensures { answer_number result ≡ refusal_of (filter_judged «data».now
        (grid_call_of shape.now size modes origin out.now) second) }
{
    array::judge_grid(data, shape, &[out.len(), second])?;
    judge_axes(shape, size, modes, origin)
}

// Worked rows of this crate's definitions: the refusals of both forms.
pub fn rows()
    ensures { MinMaxJudgeRows }
{}
