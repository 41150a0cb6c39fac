// The arguments of a call, out of what was read for a request: parts of the arrays that it was read into, and the
// modes that its codes name. Of a list that is too long one cell more than any call takes is lent, which has the same
// refusal.
#![tactic(auto)]

ghost use Rattle.std.specs.Prelude.{◌≡◌, min, pos, length, get_or};
ghost use Rattle.std.specs.Int.Signed.{lt_z};
ghost use Rattle.ndimage_arguments.specs.Arguments.{cells_from, shape_in, sides_in, data_in, weights_in};
ghost use Rattle.ndimage_arguments.specs.Arguments.{as_code, code_in, border_at, border_in, borders_in, border_in_f64};
ghost use Rattle.ndimage_arguments.specs.Arguments.{padding_in, pads_in, most_out, is_whole};
ghost use Rattle.ndimage_arguments.specs.Arguments.{level_of_mark, bad_mark, marks_by, levels_by, kernel_levels};
ghost use Rattle.ndimage_arguments.specs.Arguments.{file_in, recipe_count_in, step_numbers_in};
ghost use Rattle.numbers.specs.Lists.{any_of};
ghost use Rattle.ndimage_arguments.specs.Rows.{NdimageArgumentsRows};

use border::{BorderMode, BorderModeF64, PadMode};
use kernel3d::Kernel3d;
use ndimage_parts::requests::{PAD, PAD_TO, SYMMETRY};
use ndimage_parts::state::{
    AXES, BORDER, BORDER_1, BORDER_2, CELLS, CONSTANT_1_AT, CONSTANT_2_AT, CONSTANT_AT, COUNT,
    DATA_AT, FILE, Floats, KERNEL_AT, LENGTHS_AT, ORIGIN_AT, PADS_AT, RECIPE_COUNT, SIDES, STEPS,
    STEPS_AT, State, WEIGHTS_AT,
};
use pad_spec::Pair;

// n, or the most that can be lent.
pub fn lent(n: usize, most: usize) -> usize
    ensures { result ≡ min n most }
{
    n.min(most)
}

// n counts from a place on, or what is there.
fn counts(cells: &[usize], from: usize, n: usize) -> &[usize]
    ensures { result.now ≡ cells_from from n cells.now }
{
    let start = lent(from, cells.len());
    let count = lent(n, cells.len() - start);
    &cells[start..start + count]
}

// n levels from a place on, or what is there.
pub fn levels(cells: &[i64], from: usize, n: usize) -> &[i64]
    ensures { result.now ≡ cells_from from n cells.now }
{
    let start = lent(from, cells.len());
    let count = lent(n, cells.len() - start);
    &cells[start..start + count]
}

// The same of floats.
pub fn floats(cells: &[f64], from: usize, n: usize) -> &[f64]
    ensures { result.now ≡ cells_from from n cells.now }
{
    let start = lent(from, cells.len());
    let count = lent(n, cells.len() - start);
    &cells[start..start + count]
}

// The same of marks.
pub fn marks(cells: &[bool], from: usize, n: usize) -> &[bool]
    ensures { result.now ≡ cells_from from n cells.now }
{
    let start = lent(from, cells.len());
    let count = lent(n, cells.len() - start);
    &cells[start..start + count]
}

// The same of bytes.
pub fn bytes(cells: &[u8], from: usize, n: usize) -> &[u8]
    ensures { result.now ≡ cells_from from n cells.now }
{
    let start = lent(from, cells.len());
    let count = lent(n, cells.len() - start);
    &cells[start..start + count]
}

// The level at a place.
fn level(cells: &[i64], at: usize) -> i64
    ensures { result ≡ get_or cells.now at (pos 0) }
{
    cells.get(at).copied().unwrap_or(0)
}

// The lengths of the axes.
pub fn shape(state: &State) -> &[usize]
    ensures { result.now ≡ shape_in state.now }
{
    counts(state, LENGTHS_AT, lent(state[AXES], 4))
}

// The sides of a kernel.
pub fn sides(state: &State) -> &[usize]
    ensures { result.now ≡ sides_in state.now }
{
    counts(state, KERNEL_AT, lent(state[SIDES], 4))
}

// The levels of the grid.
pub fn data<'a>(state: &State, cells: &'a [i64]) -> &'a [i64]
    ensures { result.now ≡ data_in state.now cells.now }
{
    levels(cells, DATA_AT, lent(state[CELLS], 8193))
}

// The same of floats.
pub fn data_f64<'a>(state: &State, cells: &'a [f64]) -> &'a [f64]
    ensures { result.now ≡ data_in state.now cells.now }
{
    floats(cells, DATA_AT, lent(state[CELLS], 8193))
}

// The weights.
pub fn weights<'a>(state: &State, cells: &'a [i64]) -> &'a [i64]
    ensures { result.now ≡ weights_in state.now cells.now }
{
    levels(cells, WEIGHTS_AT, lent(state[COUNT], 344))
}

// The same of floats.
pub fn weights_f64<'a>(state: &State, cells: &'a [f64]) -> &'a [f64]
    ensures { result.now ≡ weights_in state.now cells.now }
{
    floats(cells, WEIGHTS_AT, lent(state[COUNT], 344))
}

// The bytes of a recipe file.
pub fn file<'a>(state: &State, cells: &'a [u8]) -> &'a [u8]
    ensures { result.now ≡ file_in state.now cells.now }
{
    bytes(cells, 0, state[FILE])
}

// The numbers of the steps, six of each.
pub fn step_numbers<'a>(state: &State, cells: &'a [i64]) -> &'a [i64]
    ensures { result.now ≡ step_numbers_in state.now cells.now }
{
    levels(cells, STEPS_AT, 6 * lent(state[STEPS], 16))
}

// The count that is written to a recipe file; one beyond a byte as 255, which has the same refusal.
pub fn recipe_count(state: &State) -> u8
    ensures { result ≡ recipe_count_in state.now }
{
    lent(state[RECIPE_COUNT], 255) as u8
}

// A number that was read as a code.
fn as_code(n: usize) -> u8
    ensures { result ≡ as_code n }
{
    n.min(255) as u8
}

// The code that a word was read as.
pub fn code(state: &State) -> u8
    ensures { result ≡ code_in state.now }
{
    as_code(state[BORDER])
}

// The border of a number that was read as a code, whose constant is at a place.
fn border_at(n: usize, levels: &[i64], at: usize) -> BorderMode
    ensures { result ≡ border_at n levels.now at }
{
    codes::mode_of(as_code(n), level(levels, at))
}

// The border.
pub fn border_of(state: &State, levels: &[i64]) -> BorderMode
    ensures { result ≡ border_in state.now levels.now }
{
    border_at(state[BORDER], levels, CONSTANT_AT)
}

// The borders of axes 0, 1 and 2.
pub fn borders_of(state: &State, levels: &[i64]) -> [BorderMode; 3]
    ensures { result ≡ borders_in state.now levels.now }
{
    [
        border_at(state[BORDER], levels, CONSTANT_AT),
        border_at(state[BORDER_1], levels, CONSTANT_1_AT),
        border_at(state[BORDER_2], levels, CONSTANT_2_AT),
    ]
}

// The border of floats.
pub fn border_of_f64(state: &State, floats: &Floats) -> BorderModeF64
    ensures { result ≡ border_in_f64 state.now floats.now }
{
    codes::mode_of_f64(code(state), floats[CONSTANT_AT])
}

// The padding mode.
pub fn padding_of(state: &State, levels: &[i64]) -> PadMode
    ensures { result ≡ padding_in state.now levels.now }
{
    codes::pad_mode_of(code(state), level(levels, CONSTANT_AT))
}

// The origin.
pub fn origin_of(levels: &[i64]) -> isize
    ensures { result ≡ get_or levels.now 8538 (pos 0) }
{
    level(levels, ORIGIN_AT) as isize
}

// Three pairs of pads; those that were not given are 0.
pub fn pads_of(state: &State) -> [Pair; 3]
    ensures { result ≡ pads_in state.now }
{
    [
        Pair {
            left: state[PADS_AT],
            right: state[PADS_AT + 1],
        },
        Pair {
            left: state[PADS_AT + 2],
            right: state[PADS_AT + 3],
        },
        Pair {
            left: state[PADS_AT + 4],
            right: state[PADS_AT + 5],
        },
    ]
}

// The most that can be lent as an output, which is one more than any call takes.
pub fn most_out(request: usize) -> usize
    ensures { result ≡ most_out request }
{
    match request {
        PAD | PAD_TO => 32769,
        _ => 8193,
    }
}

// Whether a request has an output of whole levels.
pub fn is_whole(request: usize, form: usize) -> bool
    ensures { result ≡ is_whole request form }
{
    form != 1 && request < SYMMETRY
}

// 1 for true, 0 for false.
pub fn digit(mark: bool) -> i64
    ensures { result ≡ level_of_mark mark }
{
    i64::from(mark)
}

// Whether a level is neither 0 nor 1.
fn bad_mark(z: i64) -> bool
    ensures { result ≡ bad_mark z }
{
    !(0..=1).contains(&z)
}

// Whether some level of a mask is neither 0 nor 1.
pub fn bad_marks(levels: &[i64]) -> bool
    ensures { result ≡ any_of bad_mark levels.now }
{
    levels.iter().any(|&z| bad_mark(z))
}

// Whether a level stands for true.
fn is_marked(z: i64) -> bool
    ensures { result ≡ lt_z (pos 0) z }
{
    0 < z
}

// Sets marks by as many levels; where there are not as many, nothing.
pub fn mark(levels: &[i64], marks: &mut [bool])
    ensures { marks.new ≡ marks_by levels.now marks.old }
{
    let n = marks.len();
    if levels.len() != n {
        return;
    }
    for i in 0..n {
        marks[i] = is_marked(levels[i]);
    }
}

// Sets levels by as many marks, 1 for true and 0 for false; where there are not as many, nothing.
pub fn unmark(marks: &[bool], levels: &mut [i64])
    ensures { levels.new ≡ levels_by marks.now levels.old }
{
    let n = levels.len();
    if marks.len() != n {
        return;
    }
    for i in 0..n {
        levels[i] = digit(marks[i]);
    }
}

// Sets 27 levels to a kernel's cells, the last axis fastest.
pub fn fill_kernel(kernel: Kernel3d, levels: &mut [i64])
    requires { length levels.old ≡ 27 }
    ensures { levels.new ≡ kernel_levels kernel }
{
    let cells = kernel.generate();
    for i in 0..27 {
        levels[i] = digit(cells[i / 9][i / 3 % 3][i % 3]);
    }
}

// Worked rows about arguments.
pub fn rows()
    ensures { NdimageArgumentsRows }
{}
