// The recipe file of a list of numbers.
ghost use Rattle.std.specs.Prelude.{◌≡◌, length};
ghost use Rattle.numbers.specs.Number.{answer_number};
ghost use Rattle.numbers.specs.Refusal.{Answers};
ghost use Rattle.recipe_spec.specs.Recipes.{file_of};
ghost use Rattle.recipe_fields.specs.Fields.{steps_from, bad_fields, numbers_judged};

use crate::ranges::bad_field;
use crate::steps::{number_at, steps_from};
use numbers::Refusal;

// Whether one of the first 96 numbers is one that its field cannot hold.
fn bad_fields(fields: &[i64]) -> bool
    ensures { result ≡ bad_fields fields.now }
{
    (0..96).any(|k| bad_field(k % 6, number_at(fields, k)))
}

// Writes the file of a recipe of plain numbers to lent bytes.
//
// * `count` - how many steps the recipe has.
// * `fields` - kind, axis, length, origin, border and constant of each step, one step after the other. Numbers that are
//   missing are 0; those past 16 steps are not looked at.
// * `out` - 6 + 7 * count bytes; kept as they were where the call is refused.
//
// Refuses: 14 (count), 15 (step), 100 (a number that its field cannot hold, of any of 16 steps: outside -128..127 of an
// origin, -32,768..32,767 of a constant, 0..255 of any other). Of 0 0 2 0 2 0 with the count 1 it writes 76 75 83 0 1 1
// 0 0 2 0 2 0 0.
pub fn write_fields(count: u8, fields: &[i64], out: &mut [u8]) -> Result<(), Refusal>
    ensures { Answers (numbers_judged count fields.now (length out.old))
        (file_of count (steps_from fields.now)) out.old (answer_number result) out.new }
{
    let steps = steps_from(fields);
    if bad_fields(fields) {
        let judged = recipe_file::judge_recipe(count, steps, out.len());
        return codes::or_unknown(judged);
    }
    recipe_file::write_recipe(count, steps, out)
}
