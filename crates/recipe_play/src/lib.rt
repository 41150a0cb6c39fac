// The player of recipe files.
#![tactic(auto)]

ghost use Rattle.std.specs.Prelude.{[], ◌∷◌, pos, length};
ghost use Rattle.numbers.specs.Number.{answer_number};
ghost use Rattle.numbers.specs.Refusal.{ScratchAnswers};
ghost use Rattle.recipe_spec.specs.Player.{played, recipe_steps, play_judged};

use numbers::Refusal;

mod step;
mod steps;

// Plays the recipe of a file over a grid: its steps one after the other, each the call of its kind. All is judged
// before a cell changes.
//
// * `file` - the bytes of the file, whatever they are.
// * `data` - the cells of the grid, in row-major order.
// * `shape` - the length of each axis.
// * `out` - as long as data; kept as it was where the call is refused.
// * `second` - as long as data, for what is left between steps; all 0 after an accepted call, kept as it was after a
//   refused one.
//
// Refuses: 13 (mark), 14 (count), 15 (step), then 1 (shape), 2 (length), 3 (level), then the number of the first step
// that its call refuses: 5 (kernel), 7 (origin), 8 (axis), 11 (reach). 4 2 7 under the one step 0 0 2 0 2 0 0 gives
// 4 2 2.
pub fn play(
    file: &[u8],
    data: &[i64],
    shape: &[usize],
    out: &mut [i64],
    second: &mut [i64],
) -> Result<(), Refusal>
    ensures { ScratchAnswers (pos 0) (play_judged file.now shape.now «data».now
        (length out.old) (length second.old))
        (played shape.now (recipe_steps file.now) «data».now) out.old
        (second.old ∷ []) (answer_number result) out.new (second.new ∷ []) }
{
    let recipe = recipe_file::read_recipe(file)?;
    array::judge_grid(data, shape, &[out.len(), second.len()])?;
    steps::judge_steps(recipe.count, recipe.steps, shape)?;
    steps::play_steps(recipe.count, recipe.steps, data, shape, second, out);
    array::fill(second, 0);
    Ok(())
}
