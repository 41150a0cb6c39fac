// Uniform filters along one axis and along every axis (src/filters/uniform.rs; SciPy's uniform_filter1d and
// uniform_filter): the mean of each window, cut toward zero.
#![tactic(auto)]

ghost use Rattle.uniform.specs.Rows.{UniformRows};
ghost use Rattle.std.specs.Prelude.{◌≡◌, [], ◌∷◌, pos, length};
ghost use Rattle.numbers.specs.Number.{answer_number};
ghost use Rattle.numbers.specs.Refusal.{refusal_of, Answers, ScratchAnswers};
ghost use Rattle.border.specs.Axes.{borders_of};
ghost use Rattle.border.specs.Modes.{border_of};
ghost use Rattle.uniform_spec.specs.Uniform.{uniform1d, uniform as uniformOf};
ghost use Rattle.uniform_spec.specs.Judge.{uniform1d_judged, uniform_judged};
ghost use Rattle.uniform.specs.PassNeeds.{PassNeeds};

use border::BorderMode;
use numbers::Refusal;
pub use uniform_judge::{judge_along, judge_uniform, judge_uniform1d};

// Fills out with the means along the axis; `uniform_filter` makes one pass for each axis, and a recipe one for a step.
//
// * `data`, `shape`, `size`, `axis`, `mode`, `out` - as in `uniform_filter1d`.
//
// Supposes an accepted grid, size, axis and border. -1 -2 -4 with size 3 along axis 0 under Constant 0 gives -1 -2 -2.
pub fn pass(
    data: &[i64],
    shape: &[usize],
    size: usize,
    axis: usize,
    mode: BorderMode,
    out: &mut [i64],
)
    requires { PassNeeds (border_of mode) size shape.now axis «data».now out.old }
    ensures { out.new ≡ uniform1d (border_of mode) size shape.now axis
        «data».now }
{
    let left = size / 2;
    let right = size - left - 1;
    uniform_axis::uniform_axis(mode, data, shape, axis, left, right, out);
}

// Fills out with the answer of an accepted grid call, each pass by its own axis's border; second holds what a pass
// between leaves.
fn passes(
    data: &[i64],
    shape: &[usize],
    size: usize,
    modes: [BorderMode; 3],
    second: &mut [i64],
    out: &mut [i64],
)
    requires { refusal_of (uniform_judged (borders_of modes) size shape.now «data».now (length out.old)
        (length second.old)) ≡ 0 }
    ensures { out.new ≡ uniformOf (borders_of modes) size shape.now «data».now }
{
    let axes = shape.len();
    if axes == 1 {
        pass(data, shape, size, 0, modes[0], out);
        return;
    }
    if axes == 2 {
        pass(data, shape, size, 0, modes[0], second);
        pass(second, shape, size, 1, modes[1], out);
        return;
    }
    pass(data, shape, size, 0, modes[0], out);
    pass(out, shape, size, 1, modes[1], second);
    pass(second, shape, size, 2, modes[2], out);
}

// Fills each cell of out with the mean of its window along one axis, cut toward zero; SciPy's uniform_filter1d.
//
// * `data` - the cells of the grid, in row-major order.
// * `shape` - the length of each axis.
// * `size` - the length of the window; that of cell i starts at i - size / 2.
// * `axis` - the axis along which the windows lie.
// * `mode` - the border.
// * `out` - as long as data; kept as it was where the call is refused.
//
// Refuses: 1 (shape), 2 (length), 3 (level), 5 (kernel), 8 (axis), 9 (constant), 11 (reach). -1 -2 -4 with size 3 along
// axis 0 under Constant(0) gives -1 -2 -2.
pub fn uniform_filter1d(
    data: &[i64],
    shape: &[usize],
    size: usize,
    axis: usize,
    mode: BorderMode,
    out: &mut [i64],
) -> Result<(), Refusal>
    ensures { Answers (uniform1d_judged (border_of mode) size shape.now axis «data».now
        (length out.old)) (uniform1d (border_of mode) size shape.now axis «data».now)
        out.old (answer_number result) out.new }
{
    uniform_judge::judge_uniform1d(data, shape, size, axis, mode, out.len())?;
    pass(data, shape, size, axis, mode, out);
    Ok(())
}

// Fills each cell of out with the means along every axis, in rising order, each pass cut toward zero; SciPy's
// uniform_filter.
//
// * `data` - the cells of the grid, in row-major order.
// * `shape` - the length of each axis.
// * `size` - the length of the window on every axis.
// * `modes` - the border of each axis; those past the axis count are not read.
// * `second` - a second grid as long as data, for what a pass leaves to the next; an accepted call leaves zeros in it.
// * `out` - as long as data.
//
// Refuses: 1 (shape), 2 (length), 3 (level), 5 (kernel), 9 (constant), 11 (reach). A refused call leaves both lent
// grids as they were. The rows 9 6 -3 / 12 0 15 with size 2 under Constant(5) and Constant(9) give 8 6 3 / 9 6 4.
pub fn uniform_filter(
    data: &[i64],
    shape: &[usize],
    size: usize,
    modes: [BorderMode; 3],
    second: &mut [i64],
    out: &mut [i64],
) -> Result<(), Refusal>
    ensures { ScratchAnswers (pos 0) (uniform_judged (borders_of modes) size shape.now
        «data».now (length out.old) (length second.old))
        (uniformOf (borders_of modes) size shape.now «data».now) out.old
        (second.old ∷ []) (answer_number result) out.new (second.new ∷ []) }
{
    uniform_judge::judge_uniform(data, shape, size, modes, out.len(), second.len())?;
    passes(data, shape, size, modes, second, out);
    array::fill(second, 0);
    Ok(())
}

// Worked rows of this crate's definitions: the lanes of an axis, the calls.
pub fn rows()
    ensures { UniformRows }
{}
