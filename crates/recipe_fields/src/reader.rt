// The numbers of a recipe file.
ghost use Rattle.std.specs.Prelude.{◌≡◌, ◌<◌, pos, length, get_or};
ghost use Rattle.numbers.specs.Number.{answer_number};
ghost use Rattle.numbers.specs.Refusal.{Answers};
ghost use Rattle.recipe_spec.specs.Recipes.{read_of};
ghost use Rattle.recipe_fields.specs.Fields.{step_fields, recipe_fields, fields_judged};

use numbers::Refusal;
use recipe_spec::Step;

// Number j of a step, 0 past the sixth.
fn step_field(s: Step, j: usize) -> i64
    ensures { result ≡ get_or (step_fields s) j (pos 0) }
{
    match j {
        0 => i64::from(s.kind),
        1 => i64::from(s.axis),
        2 => i64::from(s.length),
        3 => i64::from(s.origin),
        4 => i64::from(s.border),
        5 => i64::from(s.constant),
        _ => 0,
    }
}

// Number i of a recipe.
fn recipe_field(count: u8, steps: [Step; 16], i: usize) -> i64
    requires { i < 97 }
    ensures { result ≡ get_or (recipe_fields count steps) i (pos 0) }
{
    if i == 0 {
        return i64::from(count);
    }
    let j = i - 1;
    let s = steps[j / 6];
    step_field(s, j % 6)
}

// Fills 97 cells with the numbers of a recipe.
fn fill_fields(count: u8, steps: [Step; 16], out: &mut [i64])
    requires { length out.old ≡ 97 }
    ensures { out.new ≡ recipe_fields count steps }
{
    for i in 0..97 {
        out[i] = recipe_field(count, steps, i);
    }
}

// The recipe of a file as numbers: the count, then kind, axis, length, origin, border and constant of each of 16 steps;
// those of steps past the count are 0.
//
// * `file` - the bytes, whatever they are.
// * `out` - 97 cells; kept as they were where the call is refused.
//
// Refuses: 13 (mark), 14 (count), 15 (step), 2 (length). Of the bytes 76 75 83 0 1 1 0 0 2 0 2 0 0 the numbers are 1,
// then 0 0 2 0 2 0, then 90 zeros.
pub fn read_fields(file: &[u8], out: &mut [i64]) -> Result<(), Refusal>
    ensures { Answers (fields_judged file.now (length out.old))
        (recipe_fields (read_of file.now).count (read_of file.now).steps) out.old (answer_number result)
        out.new }
{
    let recipe = recipe_file::read_recipe(file)?;
    if out.len() != 97 {
        return Err(Refusal::Length);
    }
    fill_fields(recipe.count, recipe.steps, out);
    Ok(())
}
