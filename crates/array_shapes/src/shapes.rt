// Shapes: any slice of lengths there is, judged before it is multiplied.
ghost use Rattle.std.specs.Prelude.{◌≡◌, ◌||◌, cond, ◌*◌, ltb};
ghost use Rattle.numbers.specs.Limits.{longest_axis, most_cells};
ghost use Rattle.numbers.specs.Ranges.{outside};
ghost use Rattle.array_spec.specs.Conditions.{grid_count};
ghost use Rattle.array_spec.specs.Grid.{length_of};

// The length of an axis; a missing axis has length 1. Of 2 3 axis 1 has 3 and axis 2 has 1.
pub fn len_of(shape: &[usize], axis: usize) -> usize
    ensures { result ≡ length_of shape.now axis }
{
    shape.get(axis).copied().unwrap_or(1)
}

// The number of cells of three lengths; 0 where a length is outside 1..1,024 or there are over 8,192 cells.
fn count_of_three(a: usize, b: usize, c: usize) -> usize
    ensures { result ≡ cond (outside 1 longest_axis a ||
        (outside 1 longest_axis b || (outside 1 longest_axis c || ltb most_cells (a * (b * c))))) 0 (a * (b * c)) }
{
    let allowed = 1..=numbers::LONGEST_AXIS;
    if !allowed.contains(&a) || !allowed.contains(&b) || !allowed.contains(&c) {
        return 0;
    }
    let count = a * (b * c);
    if numbers::MOST_CELLS < count {
        return 0;
    }
    count
}

// The number of cells of an accepted shape, and 0 where condition 1 refuses the shape.
// Of 2 3 it is 6; of no axis, of 0 or of 1,025 cells on an axis, and of 128 128 it is 0.
pub fn cell_count(shape: &[usize]) -> usize
    ensures { result ≡ grid_count shape.now }
{
    if !(1..=3).contains(&shape.len()) {
        return 0;
    }
    count_of_three(len_of(shape, 0), len_of(shape, 1), len_of(shape, 2))
}
