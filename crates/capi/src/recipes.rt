// Recipe files: read into numbers, written from numbers, and played over a grid.
ghost use Rattle.std.specs.Prelude.{[], ◌∷◌, pos, length};
ghost use Rattle.numbers.specs.Refusal.{Answers, ScratchAnswers};
ghost use Rattle.recipe_spec.specs.Recipes.{file_of, read_of};
ghost use Rattle.recipe_spec.specs.Player.{played, recipe_steps, play_judged};
ghost use Rattle.recipe_fields.specs.Fields.{recipe_fields, steps_from, fields_judged, numbers_judged};

// The recipe of a file as numbers: the count, then kind, axis, length, origin, border and constant of each of 16 steps;
// those of steps past the count are 0. The call `read_fields`.
//
// * `file` - the bytes, whatever they are.
// * `fields` - 97 cells; kept as they were where the call is refused.
//
// Refuses: 13 (mark), 14 (count), 15 (step), 2 (length). Of the bytes 76 75 83 0 1 1 0 0 2 0 2 0 0 the numbers are 1,
// then 0 0 2 0 2 0, then 90 zeros.
#[unsafe(no_mangle)]
pub extern "C" fn suvvokal_read_recipe(file: &[u8], fields: &mut [i64]) -> u8
    ensures { Answers (fields_judged file.now (length fields.old))
        (recipe_fields (read_of file.now).count (read_of file.now).steps) fields.old result
        fields.new }
{
    numbers::answer_number(recipe_fields::read_fields(file, fields))
}

// Writes the file of a recipe of numbers to lent bytes; the call `write_fields`.
//
// * `count` - how many steps the recipe has.
// * `fields` - kind, axis, length, origin, border and constant of each step, one step after the other. Numbers that are
//   missing are 0; those past 16 steps are not looked at.
// * `out` - 6 + 7 * count bytes; kept as they were where the call is refused.
//
// Refuses: 14 (count), 15 (step), 100 (a number that its field cannot hold, of any of 16 steps: outside -128..127 of an
// origin, -32,768..32,767 of a constant, 0..255 of any other). Of 0 0 2 0 2 0 with the count 1 it writes 76 75 83 0 1 1
// 0 0 2 0 2 0 0.
#[unsafe(no_mangle)]
pub extern "C" fn suvvokal_write_recipe(count: u8, fields: &[i64], out: &mut [u8]) -> u8
    ensures { Answers (numbers_judged count fields.now (length out.old))
        (file_of count (steps_from fields.now)) out.old result out.new }
{
    numbers::answer_number(recipe_fields::write_fields(count, fields, out))
}

// Plays the recipe of a file over a grid: its steps one after the other, each the call of its kind; the call `play`.
//
// * `file` - the bytes of the file, whatever they are.
// * `data` - the cells of the grid, in row-major order.
// * `shape` - the length of each axis.
// * `second` - a second grid as long as data; an accepted call leaves zeros in it, a refused one what it held.
// * `out` - as long as data; kept as it was where the call is refused.
//
// Refuses: 13 (mark), 14 (count), 15 (step), then 1 (shape), 2 (length), 3 (level), then the number of the first step
// that its call refuses: 5 (kernel), 7 (origin), 8 (axis), 11 (reach). 4 2 7 under the one step 0 0 2 0 2 0 gives
// 4 2 2.
#[unsafe(no_mangle)]
pub extern "C" fn suvvokal_play(
    file: &[u8],
    data: &[i64],
    shape: &[usize],
    second: &mut [i64],
    out: &mut [i64],
) -> u8
    ensures { ScratchAnswers (pos 0) (play_judged file.now shape.now «data».now
        (length out.old) (length second.old))
        (played shape.now (recipe_steps file.now) «data».now) out.old
        (second.old ∷ []) result out.new (second.new ∷ []) }
{
    numbers::answer_number(recipe_play::play(file, data, shape, out, second))
}
