// What is read for a part of a request.
ghost use Rattle.std.specs.Prelude.{◌≡◌};
ghost use Rattle.words.specs.Words.{place_in};
ghost use Rattle.ndimage_spec.specs.Parts.{part_of, times_of, is_float, slot_of, words_for, last_after};
ghost use Rattle.ndimage_spec.specs.Faults.{fault_number, fault_of};

use crate::state::{
    AXES, AXIS, BORDER, BORDER_1, BORDER_2, CELLS, CONSTANT_1_AT, CONSTANT_2_AT, CONSTANT_AT,
    COUNT, DATA_AT, FILE, FORM, HELD_AT, KERNEL_AT, LENGTHS_AT, ORIGIN_AT, OUT, PADS_AT, PAIRS,
    RECIPE_COUNT, SECOND, SIDES, SIZE, STEPS, STEPS_AT, WEIGHTS_AT,
};
use ndimage_spec::{Fault, Kind, Part, Times};

// No slot: beyond every array.
const NOWHERE: usize = usize::MAX;

// What is read for a part, by its letter; of a letter that names none, a number that is not kept.
#[tactic(auto, unfolding(ndimage_spec::specs::Parts::part_of))]
pub fn part_of(letter: u8) -> Part
    ensures { result ≡ part_of letter }
{
    match letter {
        b'F' => Part(Kind::Form, Times::Once, FORM, 1),
        b'A' => Part(Kind::Count, Times::Once, AXES, 1),
        b'L' => Part(Kind::Count, Times::Last, LENGTHS_AT, 4),
        b'C' => Part(Kind::Count, Times::Once, CELLS, 1),
        b'D' => Part(Kind::Level, Times::Last, DATA_AT, 8193),
        b'S' => Part(Kind::Count, Times::Once, SIDES, 1),
        b'K' => Part(Kind::Count, Times::Last, KERNEL_AT, 4),
        b'N' => Part(Kind::Count, Times::Once, COUNT, 1),
        b'W' => Part(Kind::Level, Times::Last, WEIGHTS_AT, 344),
        b'Z' => Part(Kind::Count, Times::Once, SIZE, 1),
        b'X' => Part(Kind::Count, Times::Once, AXIS, 1),
        b'B' => Part(Kind::Border, Times::Once, BORDER, 1),
        b'P' => Part(Kind::Padding, Times::Once, BORDER, 1),
        b'M' => Part(Kind::Kernel, Times::Once, BORDER, 1),
        b'V' => Part(Kind::Level, Times::Last, CONSTANT_AT, 1),
        b'b' => Part(Kind::Border, Times::Once, BORDER_1, 1),
        b'v' => Part(Kind::Level, Times::Last, CONSTANT_1_AT, 1),
        b'c' => Part(Kind::Border, Times::Once, BORDER_2, 1),
        b'w' => Part(Kind::Level, Times::Last, CONSTANT_2_AT, 1),
        b'O' => Part(Kind::Whole, Times::Once, ORIGIN_AT, 1),
        b'R' => Part(Kind::Count, Times::Once, PAIRS, 1),
        b'Q' => Part(Kind::Count, Times::TwiceLast, PADS_AT, 6),
        b'E' => Part(Kind::Count, Times::Once, OUT, 1),
        b'H' => Part(Kind::Whole, Times::Last, HELD_AT, 32769),
        b'T' => Part(Kind::Count, Times::Once, SECOND, 1),
        b'G' => Part(Kind::Bytes, Times::Once, FILE, 1),
        b'J' => Part(Kind::Count, Times::Once, RECIPE_COUNT, 1),
        b'Y' => Part(Kind::Count, Times::Once, STEPS, 1),
        b'U' => Part(Kind::Whole, Times::SixLast, STEPS_AT, 96),
        _ => Part(Kind::Count, Times::Once, NOWHERE, 0),
    }
}

// How many tokens a part has.
pub fn times(rule: Times, last: usize) -> usize
    ensures { result ≡ times_of rule last }
{
    match rule {
        Times::Once => 1,
        Times::Last => last,
        Times::TwiceLast => last.saturating_mul(2),
        Times::SixLast => last.saturating_mul(6),
    }
}

// Whether a token is a float: a level, where the code of the form is 1, that of f.
pub fn is_float(kind: Kind, form: usize) -> bool
    ensures { result ≡ is_float kind form }
{
    matches!(&kind, Kind::Level) && form == 1
}

// Where number i of a part goes.
pub fn slot_of(start: usize, most: usize, i: usize) -> usize
    ensures { result ≡ slot_of start most i }
{
    if i >= most {
        return NOWHERE;
    }
    start.saturating_add(i)
}

// The code of a word, by the kind of its part.
#[tactic(auto, unfolding(words::specs::Words::column_from, words::specs::Words::place_in))]
pub fn code_of(kind: Kind, token: &[u8]) -> Option<usize>
    ensures { result ≡ place_in (words_for kind) token.now }
{
    match kind {
        Kind::Form => words::find_word(token, b"i f "),
        Kind::Border => codes::border_code(token),
        Kind::Padding => codes::pad_code(token),
        Kind::Kernel => codes::kernel_code(token),
        Kind::Count | Kind::Whole | Kind::Level | Kind::Bytes => None,
    }
}

// What is wrong with a token that is not of a kind.
pub fn fault_of(kind: Kind) -> Fault
    ensures { fault_number result ≡ fault_of kind }
{
    match kind {
        Kind::Form => Fault::Form,
        Kind::Border | Kind::Padding => Fault::Mode,
        Kind::Kernel => Fault::Kernel,
        Kind::Count | Kind::Whole | Kind::Level => Fault::Number,
        Kind::Bytes => Fault::Bytes,
    }
}

// What a word leaves as the last count: 1 for the first of its table, 0 for the others.
pub fn last_after(code: usize) -> usize
    ensures { result ≡ last_after code }
{
    usize::from(code == 0)
}
