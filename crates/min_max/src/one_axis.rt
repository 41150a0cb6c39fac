// The one-axis forms: the call is judged, and every lane of its axis is swept.
ghost use Rattle.std.specs.Int.Signed.{le_z};
ghost use Rattle.numbers.specs.Order.{at_least};
ghost use Rattle.numbers.specs.Number.{answer_number};
ghost use Rattle.numbers.specs.Refusal.{Answers};
ghost use Rattle.min_max_spec.specs.Call.{call_judged};
ghost use Rattle.min_max_spec.specs.Run.{answer_of};
ghost use Rattle.min_max_judge.specs.Judge.{call_of};
ghost use Rattle.min_max_axis.specs.Lane.{order_of};

use border::BorderMode;
use min_max_axis::Extreme;
use numbers::Refusal;

// Judges a one-axis call, and fills out where it is accepted.
fn filter1d(
    extreme: Extreme,
    data: &[i64],
    shape: &[usize],
    size: usize,
    axis: usize,
    mode: BorderMode,
    origin: isize,
    out: &mut [i64],
) -> Result<(), Refusal>
    ensures { Answers (call_judged «data».now
        (call_of shape.now size axis mode origin out.old))
        (answer_of (order_of extreme) «data».now
        (call_of shape.now size axis mode origin out.old)) out.old (answer_number result)
        out.new }
{
    min_max_judge::judge_call(data, shape, size, axis, mode, origin, out)?;
    min_max_axis::pass(extreme, data, shape, size, axis, mode, origin, out);
    Ok(())
}

// Fills each cell of out with the least level of its window along one axis; SciPy's minimum_filter1d.
//
// * `data` - the cells of the grid, in row-major order.
// * `shape` - the length of each axis.
// * `size` - the length of the window; on a window of 1 no origin is read and nothing is padded.
// * `axis` - the axis that is swept.
// * `mode` - the border.
// * `origin` - moves the window of cell i to i - size / 2 - origin.
// * `out` - as long as data; kept as it was where the call is refused.
//
// Refuses: 1 (shape), 2 (length), 3 (level), 5 (kernel), 7 (origin), 8 (axis), 9 (constant), 11 (reach). 2 1 4 3 5 with
// size 3 along axis 0 under Reflect and origin 0 gives 1 1 1 3 3.
pub fn minimum_filter1d(
    data: &[i64],
    shape: &[usize],
    size: usize,
    axis: usize,
    mode: BorderMode,
    origin: isize,
    out: &mut [i64],
) -> Result<(), Refusal>
    ensures { Answers (call_judged «data».now
        (call_of shape.now size axis mode origin out.old))
        (answer_of le_z «data».now (call_of shape.now size axis mode origin out.old))
        out.old (answer_number result) out.new }
{
    filter1d(Extreme::Least, data, shape, size, axis, mode, origin, out)
}

// As `minimum_filter1d`, with the greatest level; SciPy's maximum_filter1d.
// 2 1 4 3 5 with size 3 along axis 0 under Reflect and origin 0 gives 2 4 4 5 5.
pub fn maximum_filter1d(
    data: &[i64],
    shape: &[usize],
    size: usize,
    axis: usize,
    mode: BorderMode,
    origin: isize,
    out: &mut [i64],
) -> Result<(), Refusal>
    ensures { Answers (call_judged «data».now
        (call_of shape.now size axis mode origin out.old))
        (answer_of at_least «data».now (call_of shape.now size axis mode origin out.old))
        out.old (answer_number result) out.new }
{
    filter1d(
        Extreme::Greatest,
        data,
        shape,
        size,
        axis,
        mode,
        origin,
        out,
    )
}
