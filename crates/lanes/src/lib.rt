// The lanes of an axis: how long, how far apart and how many they are, and where a lane starts. `lane_cells` reads and
// write them.
#![tactic(auto)]

ghost use Rattle.std.specs.Prelude.{◌≡◌, cond, ℕ, ◌+◌, ◌≤◌, ◌<◌, length};
ghost use Rattle.numbers.specs.Limits.{longest_padded_axis, most_padded_cells};
ghost use Rattle.array_spec.specs.Grid.{length_of, stride_of};
ghost use Rattle.lanes.specs.Rows.{LanesRows};
ghost use Rattle.lanes.specs.Lanes.{lanes_of, lane_base, lane_inside};
ghost use Rattle.lanes.specs.Starts.{Starts};

// The lanes of an axis: the cells of each, how many places apart they stand, and how many lanes there are.
#[derive(Clone, Copy)]
pub struct Lanes {
    pub len: usize,
    pub stride: usize,
    pub count: usize,
}

// How many places apart the cells of an axis stand, in a grid of at most three axes of at most 1,152 cells each: a
// padded grid has so many. Of 4 2 3 the cells of axis 0 stand 6 apart.
pub fn stride_of(shape: &[usize], axis: usize) -> usize
    requires { (length shape.now ≤ 3) × ((a : ℕ) → length_of shape.now a ≤ longest_padded_axis) }
    ensures { result ≡ stride_of shape.now axis }
{
    if axis == 0 {
        return array::len_of(shape, 1) * array::len_of(shape, 2);
    }
    if axis == 1 {
        return array::len_of(shape, 2);
    }
    1
}

// The lanes of an axis: their length, their stride and their number; all 0 where condition 1 refuses the shape. Of 2 3
// axis 0 has lanes of 2 cells 3 places apart, 3 of them; axis 1 has lanes of 3 cells 1 place apart, 2 of them.
pub fn lanes_of(shape: &[usize], axis: usize) -> Lanes
    ensures { result ≡ lanes_of shape.now axis }
{
    let cells = array::cell_count(shape);
    if cells == 0 {
        return Lanes {
            len: 0,
            stride: 0,
            count: 0,
        };
    }
    let len = array::len_of(shape, axis);
    let stride = stride_of(shape, axis);
    Lanes {
        len,
        stride,
        count: cells / len,
    }
}

// The place of a lane's first cell. Lanes of neighbouring cells, and those of an axis that has none before it, need no
// division.
fn base_of(n: usize, stride: usize, lane: usize) -> usize
    requires { (0 < stride) × (n ≤ most_padded_cells) × (stride ≤ most_padded_cells) × (lane ≤ most_padded_cells) }
    ensures { result ≡ lane_base n stride lane }
{
    if stride == 1 {
        return lane * n;
    }
    if lane < stride {
        return lane;
    }
    lane / stride * (n * stride) + lane % stride
}

// The place of the first cell of a lane that is inside the grid, and the count of the grid's cells where it is not.
//
// * `count` - how many cells the grid has; a lane of a grid of over 32,768 cells is not inside.
// * `n`, `stride` - the cells of the lane, and how many places apart they stand (`lanes_of`).
// * `lane` - the number of the lane, counted from 0 in stored order of the lanes' first cells.
//
// Of 2 by 3 cells lane 1 of axis 0 starts at place 1, lane 1 of axis 1 at place 3.
pub fn first_place(count: usize, n: usize, stride: usize, lane: usize) -> usize
    ensures { result ≡ cond (lane_inside n stride lane count) (lane_base n stride lane) count }
{
    if numbers::MOST_PADDED_CELLS < count {
        return count;
    }
    if n < 1 {
        return count;
    }
    if stride < 1 {
        return count;
    }
    if count < stride {
        return count;
    }
    if count < n {
        return count;
    }
    if count <= lane {
        return count;
    }
    let base = base_of(n, stride, lane);
    if count <= base + (n - 1) * stride {
        return count;
    }
    base
}

// Where a lane starts: the place of its first cell, and how many lanes of its run stand before it.
#[derive(Clone, Copy)]
pub struct Start {
    pub place: usize,
    pub offset: usize,
}

// Where the next lane starts, without a division.
//
// * `n`, `stride` - the cells of a lane, and how many places apart they stand.
// * `lane`, `start` - the number of a lane, and where it starts.
//
// Of 2 by 3 by 2 cells lane 1 of axis 1 starts at place 1 and is the last of its run, lane 2 at place 6.
pub fn next_start(n: usize, stride: usize, lane: usize, start: Start) -> Start
    requires { Starts n stride lane start × (0 < n) × (n ≤ most_padded_cells) × (0 < stride)
        × (stride ≤ most_padded_cells) × (start.place ≤ most_padded_cells) }
    ensures { Starts n stride (lane + 1) result }
{
    let offset = start.offset + 1;
    if offset == stride {
        return Start {
            place: start.place + (n - 1) * stride + 1,
            offset: 0,
        };
    }
    Start {
        place: start.place + 1,
        offset,
    }
}

// Worked rows of this crate's definitions.
pub fn rows()
    ensures { LanesRows }
{}
