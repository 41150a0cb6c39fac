// The numeric examples of recipe files and of the text of a grid, run and printed; `stdout` beside src/ has what they
// must be. The theorems about both are called here, so that none can be dropped unnoticed.
#![tactic(auto)]

use numbers::Refusal;
use recipe_spec::{Recipe, Step};
use std::io::Print;

// The minimum along axis 0 of windows of 2 cells under nearest.
const LEAST: Step = Step {
    kind: 0,
    axis: 0,
    length: 2,
    origin: 0,
    border: 2,
    constant: 0,
};

// What is true of every file, of every list of steps and of every text.
fn theorems() {
    recipe_spec::rows();
    recipe_spec::round_trips();
    recipe_spec::judged_before();
    recipe_fields::rows();
    recipe_fields::fields_back();
    grid_text_spec::rows();
    grid_text_spec::grid_texts();
}

// The length of a step's windows.
fn length_of(s: Step) -> usize {
    usize::from(s.length)
}

// The count and the first length of a recipe that was read, or the number of its refusal.
fn read(rt: &impl Print, recipe: Result<Recipe, Refusal>) {
    match recipe {
        Ok(recipe) => {
            examples_print::line(rt, usize::from(recipe.count));
            examples_print::line(rt, length_of(recipe.steps[0]));
        }
        Err(refusal) => examples_print::answer(rt, Err(refusal)),
    }
}

// The count and the first length of document 02's example, and the number of a file without its last byte.
fn reads(rt: &impl Print) {
    read(
        rt,
        recipe_file::read_recipe(&[76, 75, 83, 0, 1, 1, 0, 0, 2, 0, 2, 0, 0]),
    );
    read(
        rt,
        recipe_file::read_recipe(&[76, 75, 83, 0, 1, 1, 0, 0, 2, 0, 2, 0]),
    );
}

// The example written: whether its bytes are the file's, and the number where a byte too few is lent.
fn writes(rt: &impl Print) {
    let steps = [LEAST; 16];
    let mut out = [9; 13];
    let accepted = recipe_file::write_recipe(1, steps, &mut out);
    examples_print::answer(rt, accepted);
    examples_print::test(rt, out == [76, 75, 83, 0, 1, 1, 0, 0, 2, 0, 2, 0, 0]);
    let mut short = [9; 12];
    let refused = recipe_file::write_recipe(1, steps, &mut short);
    examples_print::answer(rt, refused);
    examples_print::test(rt, short == [9; 12]);
    let enough = recipe_file::judge_recipe(1, steps, 13);
    examples_print::answer(rt, enough);
    let few = recipe_file::judge_recipe(1, steps, 12);
    examples_print::answer(rt, few);
}

// The example as numbers: read into 97 cells, and refused where a cell less is lent; written from its six numbers, and
// refused where a kind is 256.
fn fields(rt: &impl Print) {
    let mut out = [9; 97];
    let accepted = recipe_fields::read_fields(
        &[76, 75, 83, 0, 1, 1, 0, 0, 2, 0, 2, 0, 0],
        &mut out,
    );
    examples_print::answer(rt, accepted);
    examples_print::levels(rt, &out);
    let mut short = [9; 96];
    let refused = recipe_fields::read_fields(
        &[76, 75, 83, 0, 1, 1, 0, 0, 2, 0, 2, 0, 0],
        &mut short,
    );
    examples_print::answer(rt, refused);
    let mut file = [9; 13];
    let written = recipe_fields::write_fields(1, &[0, 0, 2, 0, 2, 0], &mut file);
    examples_print::answer(rt, written);
    examples_print::test(rt, file == [76, 75, 83, 0, 1, 1, 0, 0, 2, 0, 2, 0, 0]);
    let unheld = recipe_fields::write_fields(1, &[256, 0, 2, 0, 2, 0], &mut file);
    examples_print::answer(rt, unheld);
}

// The example played over 4 2 7, and a file whose second step is refused: out and the second grid stay.
fn plays(rt: &impl Print) {
    let mut out = [5; 3];
    let mut second = [6; 3];
    let accepted = recipe_play::play(
        &[76, 75, 83, 0, 1, 1, 0, 0, 2, 0, 2, 0, 0],
        &[4, 2, 7],
        &[3],
        &mut out,
        &mut second,
    );
    examples_print::answer(rt, accepted);
    examples_print::levels(rt, &out);
    examples_print::levels(rt, &second);
    let mut kept = [5; 3];
    let mut beside = [6; 3];
    let refused = recipe_play::play(
        &[
            76, 75, 83, 0, 1, 2, 0, 0, 2, 0, 2, 0, 0, 0, 1, 2, 0, 2, 0, 0,
        ],
        &[4, 2, 7],
        &[3],
        &mut kept,
        &mut beside,
    );
    examples_print::answer(rt, refused);
    examples_print::levels(rt, &kept);
    examples_print::levels(rt, &beside);
}

// The number of a text that is fed in one part.
fn number_of(text: &[u8]) -> Result<(), Refusal> {
    let mut lengths = [0; 3];
    let mut levels = [0; 1];
    let start = grid_text::start();
    let state = grid_text::feed(start, text, &mut lengths, &mut levels);
    grid_text::finish(state)
}

// A text of three cells in two parts: the length and the levels that it stores, and its number; then the numbers of the
// empty text and of the examples that are refused.
fn texts(rt: &impl Print) {
    let mut lengths = [9; 3];
    let mut levels = [9; 4];
    let start = grid_text::start();
    let half = grid_text::feed(start, b"1 3 4 -", &mut lengths, &mut levels);
    let state = grid_text::feed(half, b"2 7\n", &mut lengths, &mut levels);
    examples_print::line(rt, lengths[0]);
    examples_print::levels(rt, &levels);
    examples_print::answer(rt, grid_text::finish(state));
    examples_print::answer(rt, number_of(b""));
    examples_print::answer(rt, number_of(b"9 x"));
    examples_print::answer(rt, number_of(b"3 1024 1024"));
}

fn main(rt: HostRuntime) {
    theorems();
    reads(&rt);
    writes(&rt);
    fields(&rt);
    plays(&rt);
    texts(&rt);
}
