// The median of a mask (src/filters/median.rs; SciPy's median_filter with size 3, but for the border).
#![tactic(auto)]

ghost use Rattle.std.specs.Prelude.{◌≡◌, length};
ghost use Rattle.numbers.specs.Number.{answer_number};
ghost use Rattle.numbers.specs.Refusal.{refusal_of, Answers};
ghost use Rattle.median_spec.specs.Around.{median_answer};
ghost use Rattle.median_spec.specs.Judge.{bad_axes, bad_single, median_judged};

use numbers::Refusal;

// Condition 1: what condition 1 refuses of every grid, or not three axes. 2 2 2 passes, 2 2 does not.
pub fn bad_axes(shape: &[usize]) -> bool
    ensures { result ≡ bad_axes shape.now }
{
    array::bad_shape(shape) || shape.len() != 3
}

// Condition 4: an axis of one cell. 2 2 2 passes, 2 1 2 does not.
pub fn bad_single(shape: &[usize]) -> bool
    ensures { result ≡ bad_single shape.now }
{
    shape.iter().any(|&n| n == 1)
}

// Conditions 1, 2 and 4 in rising order, of a mask of `len` cells and a lent output of `out` cells: the number of the
// first that holds, or 0.
//
// Refuses: 1 (shape), 2 (length), 4 (single cell). Of 2 1 2 a mask of 5 cells gives 2, of 4 cells 4.
pub fn judge_median(shape: &[usize], len: usize, out: usize) -> Result<(), Refusal>
    ensures { answer_number result ≡ refusal_of (median_judged shape.now len out) }
{
    if bad_axes(shape) {
        return Err(Refusal::Shape);
    }
    if array::bad_lengths(shape, &[len, out]) {
        return Err(Refusal::Length);
    }
    if bad_single(shape) {
        return Err(Refusal::SingleCell);
    }
    Ok(())
}

// Fills out with the answer of an accepted call.
fn median_cells(mask: &[bool], shape: &[usize], out: &mut [bool])
    requires { refusal_of (median_judged shape.now (length mask.now) (length out.old)) ≡ 0 }
    ensures { out.new ≡ median_answer shape.now mask.now }
{
    let planes = array::len_of(shape, 0);
    let rows = array::len_of(shape, 1);
    let n = array::len_of(shape, 2);
    median_row::median_rows(mask, planes, rows, n, out);
}

// The median of each cell and its neighbours on three axes: true where more than floor((cells - 1)/2) of them are true.
// At the border only the neighbours inside the grid count, so half of 8, 12 or 18 cells is enough and 27 need 14.
//
// * `mask` - the cells of the grid.
// * `shape` - the length of each axis.
// * `out` - the lent output, as many cells.
//
// Refuses: 1 (shape), 2 (length), 4 (single cell). Of 2 by 2 by 2 cells of which four are true every cell is true, and
// where three are, none.
pub fn median_filter(mask: &[bool], shape: &[usize], out: &mut [bool]) -> Result<(), Refusal>
    ensures { Answers (median_judged shape.now (length mask.now)
        (length out.old)) (median_answer shape.now mask.now) out.old (answer_number result)
        out.new }
{
    judge_median(shape, mask.len(), out.len())?;
    median_cells(mask, shape, out);
    Ok(())
}
