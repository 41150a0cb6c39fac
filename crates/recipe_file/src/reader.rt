// The reader of recipe files.
ghost use Rattle.std.specs.Prelude.{◌≡◌, ◌≤◌, ◌<◌, ◌+◌, ◌*◌, length};
ghost use Rattle.recipe_spec.specs.Recipes.{no_step, step_at, sixteen, handed};
ghost use Rattle.recipe_spec.specs.Back.{Reads};

use crate::conditions::{bad_mark, bad_step_count, bad_steps};
use numbers::Refusal;
use recipe_spec::{Recipe, Step};

// The step whose 7 bytes start at `at`.
fn step_at(file: &[u8], at: usize) -> Step
    requires { at + 6 < length file.now }
    ensures { result ≡ step_at file.now at }
{
    Step {
        kind: file[at],
        axis: file[at + 1],
        length: file[at + 2],
        origin: file[at + 3].cast_signed(),
        border: file[at + 4],
        constant: u16::from_be_bytes([file[at + 5], file[at + 6]]).cast_signed(),
    }
}

// The step of which every field is 0.
const NO_STEP: Step = Step {
    kind: 0,
    axis: 0,
    length: 0,
    origin: 0,
    border: 0,
    constant: 0,
};

// The steps of a file, and past its count steps that are all 0.
fn steps_of(file: &[u8], count: u8) -> [Step; 16]
    requires count_in_bounds { 6 + 7 * count ≤ length file.now }
    requires count_bound { count ≤ 16 }
    ensures { result ≡ sixteen count (λ k. step_at file.now (6 + 7 * k)) }
{
    let mut steps = [NO_STEP; 16];
    for k in 0..usize::from(count) {
        steps[k] = step_at(file, 6 + 7 * k);
    }
    steps
}

// The recipe of a file: its count and steps. Steps past the count are all 0.
//
// * `file` - the bytes, whatever they are.
//
// Refuses: 13 (mark), 14 (count), 15 (step). Of the bytes 76 75 83 0 1 1 0 0 2 0 2 0 0 the count is 1, and the step is
// the minimum along axis 0 of windows of 2 cells under nearest.
pub fn read_recipe(file: &[u8]) -> Result<Recipe, Refusal>
    ensures { Reads file.now (handed result) }
{
    if bad_mark(file) {
        return Err(Refusal::Mark);
    }
    let count = file[5];
    if bad_step_count(count, file.len()) {
        return Err(Refusal::Count);
    }
    let steps = steps_of(file, count);
    if bad_steps(count, steps) {
        return Err(Refusal::Step);
    }
    Ok(Recipe { count, steps })
}
