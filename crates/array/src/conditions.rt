// Conditions 1, 2 and 8 of a refusal, a function for each, for every argument there is; and the judge of a grid.
ghost use Rattle.std.specs.Prelude.{◌≡◌, not, [], ◌∷◌, eqb};
ghost use Rattle.numbers.specs.Lists.{any_of};
ghost use Rattle.numbers.specs.Number.{answer_number};
ghost use Rattle.numbers.specs.Refusal.{refusal_of};
ghost use Rattle.array_spec.specs.Conditions.{bad_shape, bad_length, bad_float, bad_axis, grid_judged_by, grid_judged};

use array_levels::{bad_levels, bad_levels_f64};
use array_shapes::cell_count;
use numbers::Refusal;

// Condition 1: not 1 to 3 axes, a length outside 1..1,024, or over 8,192 cells.
// Refused are no axis, 1,025 and 128 128; accepted are 1,024 and 8 1,024.
pub fn bad_shape(shape: &[usize]) -> bool
    ensures { result ≡ bad_shape shape.now }
{
    cell_count(shape) == 0
}

// Condition 2: a lent grid of `len` cells does not have the shape's cell count. Of 2 3 only 6 cells pass.
// Where condition 1 refuses the shape the count is 0.
pub fn bad_length(shape: &[usize], len: usize) -> bool
    ensures { result ≡ bad_length shape.now len }
{
    len != cell_count(shape)
}

// Whether one of the lengths is not the count.
fn any_other(lent: &[usize], count: usize) -> bool
    ensures { result ≡ any_of (λ len. not (eqb len count)) lent.now }
{
    lent.iter().any(|len| *len != count)
}

// Condition 2 of several grids: one of them does not have the shape's cell count. Of 2 3 the lengths 6 6 pass, 6 5 do
// not.
//
// * `lent` - the length of each grid.
pub fn bad_lengths(shape: &[usize], lent: &[usize]) -> bool
    ensures { result ≡ any_of (bad_length shape.now) lent.now }
{
    any_other(lent, cell_count(shape))
}

// Condition 8: the axis number is not below the axis count. Of 2 3 axis 1 passes and axis 2 does not.
pub fn bad_axis(shape: &[usize], axis: usize) -> bool
    ensures { result ≡ bad_axis shape.now axis }
{
    shape.len() <= axis
}

// Conditions 1 and 2 in rising order, of a grid of `len` cells and the lent grids; the cells are counted once.
fn judge_lengths(shape: &[usize], len: usize, lent: &[usize]) -> Result<(), Refusal>
    ensures { answer_number result ≡ refusal_of ((bad_shape shape.now, 1) ∷
        (any_of (bad_length shape.now) (len ∷ lent.now), 2) ∷ []) }
{
    let count = cell_count(shape);
    if count == 0 {
        return Err(Refusal::Shape);
    }
    if len != count {
        return Err(Refusal::Length);
    }
    if any_other(lent, count) {
        return Err(Refusal::Length);
    }
    Ok(())
}

// Conditions 1, 2 and 3 of a grid of whole levels, in rising order: the number of the first that holds, or 0.
// 1 and 2 are answered before a level is read.
//
// * `data` - the cells of the grid.
// * `shape` - the length of each axis.
// * `lent` - the length of each grid that is lent besides.
//
// Refuses: 1 (shape), 2 (length), 3 (level). Of the cells 1 2 3 the shape 2 2 gives 2, whatever is lent.
pub fn judge_grid(data: &[i64], shape: &[usize], lent: &[usize]) -> Result<(), Refusal>
    ensures { answer_number result ≡ refusal_of (grid_judged shape.now «data».now lent.now) }
{
    judge_lengths(shape, data.len(), lent)?;
    if bad_levels(data) {
        return Err(Refusal::Level);
    }
    Ok(())
}

// The same of a grid of float levels. A NaN as the only cell of the shape 1 gives 3, -0.0 gives 0.
pub fn judge_grid_f64(data: &[f64], shape: &[usize], lent: &[usize]) -> Result<(), Refusal>
    ensures { answer_number result ≡ refusal_of (grid_judged_by bad_float shape.now «data».now
        lent.now) }
{
    judge_lengths(shape, data.len(), lent)?;
    if bad_levels_f64(data) {
        return Err(Refusal::Level);
    }
    Ok(())
}
