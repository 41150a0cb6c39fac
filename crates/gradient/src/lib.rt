// Prewitt and Sobel filters of whole levels (src/filters/con_corr.rs; SciPy's prewitt and sobel): the difference along
// an axis, smoothed along every other axis.
#![tactic(auto)]

ghost use Rattle.std.specs.Prelude.{[], ◌∷◌, pos, length};
ghost use Rattle.numbers.specs.Number.{answer_number};
ghost use Rattle.numbers.specs.Refusal.{ScratchAnswers};
ghost use Rattle.border.specs.Axes.{borders_of};
ghost use Rattle.gradient_spec.specs.Gradient.{prewitt_weights, sobel_weights, gradient};
ghost use Rattle.gradient_spec.specs.Judge.{ThreeSmall, gradient_judged};

use border::BorderMode;
use numbers::Refusal;

mod judge;
mod passes;

pub use judge::judge_gradient;
pub use passes::rows;

// Judges a call, and fills out where it is accepted; second then holds zeros.
fn filter(
    smooth: &[i64],
    data: &[i64],
    shape: &[usize],
    axis: usize,
    modes: [BorderMode; 3],
    second: &mut [i64],
    out: &mut [i64],
) -> Result<(), Refusal>
    requires { ThreeSmall smooth.now }
    ensures { ScratchAnswers (pos 0) (gradient_judged smooth.now (borders_of modes) shape.now
        axis «data».now (length out.old) (length second.old))
        (gradient smooth.now (borders_of modes) shape.now axis «data».now)
        out.old (second.old ∷ []) (answer_number result) out.new (second.new ∷ []) }
{
    judge::judge_gradient(data, shape, axis, modes, out.len(), second.len())?;
    passes::passes(smooth, data, shape, axis, modes, second, out);
    array::fill(second, 0);
    Ok(())
}

// The differences of the neighbours along an axis, by the weights -1 0 1, smoothed along every other axis by 1 1 1, in
// rising order; SciPy's prewitt.
//
// * `data` - the cells of the grid, in row-major order.
// * `shape` - the length of each axis.
// * `axis` - the axis of the difference.
// * `modes` - the border of each axis, which the pass along it has against the grid that the pass before left; those
//   past the axis count are not read.
// * `second` - a second grid as long as data, for what a pass leaves to the next; an accepted call leaves zeros in it.
// * `out` - as long as data.
//
// Refuses: 1 (shape), 2 (length), 3 (level), 8 (axis), 9 (constant), 11 (reach). A refused call leaves both lent grids
// as they were. The rows 1 2 4 / 8 3 5 along axis 0 under Constant(0), Wrap and Wrap give 16 16 16 / -7 -7 -7.
pub fn prewitt(
    data: &[i64],
    shape: &[usize],
    axis: usize,
    modes: [BorderMode; 3],
    second: &mut [i64],
    out: &mut [i64],
) -> Result<(), Refusal>
    ensures { ScratchAnswers (pos 0) (gradient_judged prewitt_weights (borders_of modes) shape.now axis
        «data».now (length out.old) (length second.old))
        (gradient prewitt_weights (borders_of modes) shape.now axis «data».now) out.old
        (second.old ∷ []) (answer_number result) out.new (second.new ∷ []) }
{
    filter(&[1, 1, 1], data, shape, axis, modes, second, out)
}

// As `prewitt`, smoothed by 1 2 1; SciPy's sobel.
// The rows 1 2 4 / 8 3 5 along axis 0 under Constant(0), Wrap and Wrap give 24 19 21 / -8 -9 -11.
pub fn sobel(
    data: &[i64],
    shape: &[usize],
    axis: usize,
    modes: [BorderMode; 3],
    second: &mut [i64],
    out: &mut [i64],
) -> Result<(), Refusal>
    ensures { ScratchAnswers (pos 0) (gradient_judged sobel_weights (borders_of modes) shape.now axis
        «data».now (length out.old) (length second.old))
        (gradient sobel_weights (borders_of modes) shape.now axis «data».now) out.old
        (second.old ∷ []) (answer_number result) out.new (second.new ∷ []) }
{
    filter(&[1, 2, 1], data, shape, axis, modes, second, out)
}
