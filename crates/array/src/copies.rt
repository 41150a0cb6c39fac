// Copying a grid: the smallest call that judges its arguments, and the pattern of every later one.
ghost use Rattle.std.specs.Prelude.{◌≡◌, length, replicate, [], ◌∷◌};
ghost use Rattle.numbers.specs.Number.{answer_number};
ghost use Rattle.numbers.specs.Refusal.{Answers};
ghost use Rattle.array_spec.specs.Assign.{copied};
ghost use Rattle.array_spec.specs.Conditions.{grid_judged};

use crate::conditions::judge_grid;
use numbers::Refusal;

// Copies the cells of `from` to `to`, which stays as it was where their lengths differ.
pub fn copy(from: &[i64], to: &mut [i64])
    ensures { to.new ≡ copied from.now to.old }
{
    if from.len() == to.len() {
        for i in 0..to.len() {
            to[i] = from[i];
        }
    }
}

// Sets every cell of `out` to `level`.
pub fn fill(out: &mut [i64], level: i64)
    ensures { out.new ≡ replicate (length out.old) level }
{
    out.fill(level);
}

// Copies a grid of whole levels.
//
// * `data` - the cells of the grid.
// * `shape` - the length of each axis.
// * `out` - the lent output, as many cells.
//
// Refuses: 1 (shape), 2 (length), 3 (level). The rows 1 2 / 3 4 are copied; of the cells 1 2 3 the shape 2 2 gives 2.
pub fn assign(data: &[i64], shape: &[usize], out: &mut [i64]) -> Result<(), Refusal>
    ensures { Answers (grid_judged shape.now «data».now (length out.old ∷ []))
        «data».now out.old (answer_number result) out.new }
{
    judge_grid(data, shape, &[out.len()])?;
    copy(data, out);
    Ok(())
}
