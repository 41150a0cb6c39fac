// `play`, `read_recipe` and `write_recipe`.
use ndimage_parts::state::{File, OUT, SECOND, STEPS, State};
use ndimage_spec::Fault;
use numbers::Refusal;
use std::io::Print;

// The player, and its answer; the second grid has what was asked, or one cell more than any call takes.
pub(crate) fn play(
    state: &State,
    file: &File,
    data: &[i64],
    shape: &[usize],
    out: &mut [i64],
) -> Result<(), Refusal> {
    let mut second = [0i64; 8193];
    let n = ndimage_arguments::lent(state[SECOND], 8193);
    let bytes = ndimage_arguments::file(state, file);
    recipe_play::play(bytes, data, shape, out, &mut second[0..n])
}

// How many steps a file has and their numbers, into 97 cells.
fn fields_of(bytes: &[u8], fields: &mut [i64]) -> Result<u8, Refusal> {
    let recipe = recipe_file::read_recipe(bytes)?;
    recipe_fields::read_fields(bytes, fields)?;
    Ok(recipe.count)
}

// The count of a file, and six numbers a step.
pub(crate) fn read(rt: &impl Print, state: &State, file: &File) {
    let mut fields = [0i64; 97];
    match fields_of(ndimage_arguments::file(state, file), &mut fields) {
        Ok(count) => ndimage_write::levels(
            rt,
            ndimage_arguments::levels(&fields, 0, 1 + 6 * usize::from(count)),
        ),
        Err(refusal) => ndimage_write::refused(rt, refusal as u8),
    }
}

// The bytes, or the refusal; or what is wrong with the steps.
fn written(rt: &impl Print, answer: Result<(), Refusal>, out: &[u8]) -> Result<(), Fault> {
    match answer {
        Ok(()) => ndimage_write::bytes(rt, out),
        Err(Refusal::Unknown) => return Err(Fault::Field),
        Err(refusal) => ndimage_write::refused(rt, refusal as u8),
    }
    Ok(())
}

// The call and its answer.
fn write_in(rt: &impl Print, state: &State, levels: &[i64], out: &mut [u8]) -> Result<(), Fault> {
    let count = ndimage_arguments::recipe_count(state);
    let fields = ndimage_arguments::step_numbers(state, levels);
    let answer = recipe_fields::write_fields(count, fields, out);
    written(rt, answer, out)
}

// The file of a count and steps, in as many bytes as were asked, or one more than any file has; or what is wrong with
// the steps.
pub(crate) fn write(rt: &impl Print, state: &State, levels: &[i64]) -> Result<(), Fault> {
    if state[STEPS] > 16 {
        return Err(Fault::ManySteps);
    }
    let mut out = [0u8; 119];
    let n = ndimage_arguments::lent(state[OUT], 119);
    write_in(rt, state, levels, &mut out[0..n])
}
