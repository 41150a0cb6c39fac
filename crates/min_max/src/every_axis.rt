// The grid forms: one pass for each axis, in rising order, each with its own border, between the output and a second
// grid.
ghost use Rattle.std.specs.Prelude.{◌≡◌, [], ◌∷◌, pos, length};
ghost use Rattle.std.specs.Int.Signed.{le_z};
ghost use Rattle.numbers.specs.Order.{at_least};
ghost use Rattle.numbers.specs.Number.{answer_number};
ghost use Rattle.numbers.specs.Refusal.{refusal_of, ScratchAnswers};
ghost use Rattle.min_max_judge.specs.Judge.{grid_call_of, filter_judged};
ghost use Rattle.min_max_axis.specs.Lane.{order_of};
ghost use Rattle.min_max_spec.specs.Filters.{filter_answer};

use border::BorderMode;
use min_max_axis::Extreme;
use numbers::Refusal;

// Fills out with the answer of an accepted grid call; second holds what a pass between leaves.
fn passes(
    extreme: Extreme,
    data: &[i64],
    shape: &[usize],
    size: usize,
    modes: [BorderMode; 3],
    origin: isize,
    second: &mut [i64],
    out: &mut [i64],
)
    requires { refusal_of (filter_judged «data».now (grid_call_of shape.now size modes origin out.old)
        (length second.old)) ≡ 0 }
    ensures { out.new ≡ filter_answer (order_of extreme)
        (grid_call_of shape.now size modes origin out.old) «data».now }
{
    let axes = shape.len();
    let first = modes[0];
    if axes == 1 {
        min_max_axis::pass(extreme, data, shape, size, 0, first, origin, out);
        return;
    }
    let next = modes[1];
    if axes == 2 {
        min_max_axis::pass(extreme, data, shape, size, 0, first, origin, second);
        min_max_axis::pass(extreme, second, shape, size, 1, next, origin, out);
        return;
    }
    min_max_axis::pass(extreme, data, shape, size, 0, first, origin, out);
    min_max_axis::pass(extreme, out, shape, size, 1, next, origin, second);
    min_max_axis::pass(extreme, second, shape, size, 2, modes[2], origin, out);
}

// Judges a grid call, and fills out where it is accepted; second then holds zeros.
fn filter(
    extreme: Extreme,
    data: &[i64],
    shape: &[usize],
    size: usize,
    modes: [BorderMode; 3],
    origin: isize,
    second: &mut [i64],
    out: &mut [i64],
) -> Result<(), Refusal>
    ensures { ScratchAnswers (pos 0) (filter_judged «data».now
        (grid_call_of shape.now size modes origin out.old) (length second.old))
        (filter_answer (order_of extreme) (grid_call_of shape.now size modes origin out.old)
        «data».now) out.old (second.old ∷ []) (answer_number result) out.new
        (second.new ∷ []) }
{
    min_max_judge::judge_filter(data, shape, size, modes, origin, out, second.len())?;
    passes(extreme, data, shape, size, modes, origin, second, out);
    array::fill(second, 0);
    Ok(())
}

// Fills each cell of out with the least level of its box: the minimum along every axis, in rising order; SciPy's
// minimum_filter.
//
// * `data` - the cells of the grid, in row-major order.
// * `shape` - the length of each axis.
// * `size` - the length of the window on every axis; with 1 no origin is read and nothing is padded.
// * `modes` - the border of each axis; those past the axis count are not read.
// * `origin` - moves the window on every axis: that of cell i starts at i - size / 2 - origin.
// * `second` - a second grid as long as data, for what a pass leaves to the next; an accepted call leaves zeros in it.
// * `out` - as long as data.
//
// Refuses: 1 (shape), 2 (length), 3 (level), 5 (kernel), 7 (origin), 9 (constant), 11 (reach). A refused call leaves
// both lent grids as they were. The rows 5 3 / 4 9 with size 2 and origin 0 give 0 0 / 0 3 under Constant(0) on both
// axes, and 3 3 / 3 3 under Nearest and Wrap.
pub fn minimum_filter(
    data: &[i64],
    shape: &[usize],
    size: usize,
    modes: [BorderMode; 3],
    origin: isize,
    second: &mut [i64],
    out: &mut [i64],
) -> Result<(), Refusal>
    ensures { ScratchAnswers (pos 0) (filter_judged «data».now
        (grid_call_of shape.now size modes origin out.old) (length second.old))
        (filter_answer le_z (grid_call_of shape.now size modes origin out.old) «data».now)
        out.old (second.old ∷ []) (answer_number result) out.new (second.new ∷ []) }
{
    filter(
        Extreme::Least,
        data,
        shape,
        size,
        modes,
        origin,
        second,
        out,
    )
}

// As `minimum_filter`, with the greatest level; SciPy's maximum_filter.
// The rows 5 3 / 4 9 with size 2 and origin 0 give 5 5 / 5 9 under Constant(0) on both axes, and 5 5 / 9 9 under
// Nearest and Wrap.
pub fn maximum_filter(
    data: &[i64],
    shape: &[usize],
    size: usize,
    modes: [BorderMode; 3],
    origin: isize,
    second: &mut [i64],
    out: &mut [i64],
) -> Result<(), Refusal>
    ensures { ScratchAnswers (pos 0) (filter_judged «data».now
        (grid_call_of shape.now size modes origin out.old) (length second.old))
        (filter_answer at_least (grid_call_of shape.now size modes origin out.old)
        «data».now) out.old (second.old ∷ []) (answer_number result) out.new
        (second.new ∷ []) }
{
    filter(
        Extreme::Greatest,
        data,
        shape,
        size,
        modes,
        origin,
        second,
        out,
    )
}
