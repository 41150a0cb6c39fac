// The writer of recipe files.
ghost use Rattle.std.specs.Prelude.{◌≡◌, ◌≤◌, ◌<◌, ◌+◌, ◌*◌, length, get_or};
ghost use Rattle.numbers.specs.Number.{answer_number};
ghost use Rattle.numbers.specs.Refusal.{Answers};
ghost use Rattle.recipe_spec.specs.Recipes.{step_bytes, file_of, recipe_judged};

use crate::conditions::judge_recipe;
use numbers::Refusal;
use recipe_spec::Step;

// Byte j of a step, 0 past the seventh.
fn step_byte(s: Step, j: usize) -> u8
    ensures { result ≡ get_or (step_bytes s) j 0 }
{
    let constant = s.constant.cast_unsigned();
    match j {
        0 => s.kind,
        1 => s.axis,
        2 => s.length,
        3 => s.origin.cast_unsigned(),
        4 => s.border,
        5 => (constant / 256) as u8,
        6 => (constant % 256) as u8,
        _ => 0,
    }
}

// Byte i of the file of a recipe.
fn file_byte(count: u8, steps: [Step; 16], i: usize) -> u8
    requires count_bound { count ≤ 16 }
    requires i_bound { i < 6 + 7 * count }
    ensures { result ≡ get_or (file_of count steps) i 0 }
{
    if i < 6 {
        let mark = [76, 75, 83, 0, 1, count];
        return mark[i];
    }
    let j = i - 6;
    let s = steps[j / 7];
    step_byte(s, j % 7)
}

// Writes the file of a recipe to lent bytes.
//
// * `count` - how many of the steps the recipe has.
// * `steps` - the steps; those past the count are not looked at.
// * `out` - 6 + 7 * count bytes.
//
// Refuses: 14 (count), 15 (step). Of one step 0 0 2 0 2 0 it writes 76 75 83 0 1 1 0 0 2 0 2 0 0.
pub fn write_recipe(count: u8, steps: [Step; 16], out: &mut [u8]) -> Result<(), Refusal>
    ensures { Answers (recipe_judged count steps (length out.old)) (file_of count steps)
        out.old (answer_number result) out.new }
{
    judge_recipe(count, steps, out.len())?;
    for i in 0..out.len() {
        out[i] = file_byte(count, steps, i);
    }
    Ok(())
}
