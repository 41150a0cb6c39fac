// A lane of whole levels read into a line, and a line written back to a lane. Where the cells are neighbours, the
// step is the constant 1, so that the compiler makes a plain copy of the loop.
#![tactic(auto)]

ghost use Rattle.std.specs.Prelude.{◌≡◌, ◌+◌, ◌*◌, ◌<◌, pos, length};
ghost use Rattle.lanes.specs.Lanes.{lane_base, lane_at, with_lane, read_lane};

mod float;

pub use float::{read_from_f64, write_from_f64};

// Copies the cells from base on, stride apart, into the line.
fn gather(grid: &[i64], base: usize, stride: usize, line: &mut [i64])
    requires { base + length line.old * stride < length grid.now + stride }
    ensures { line.new ≡ lane_at (pos 0) grid.now base stride (length line.old) }
{
    for i in 0..line.len() {
        let at = base + i * stride;
        let v = grid[at];
        line[i] = v;
    }
}

// Copies the line to the cells of the lane, whose first cell is at base.
fn scatter(line: &[i64], stride: usize, lane: usize, base: usize, grid: &mut [i64])
    requires { (0 < length line.now) × (0 < stride) × (base ≡ lane_base (length line.now) stride lane)
        × (base + length line.now * stride < length grid.old + stride) }
    ensures { grid.new ≡ with_lane (pos 0) (length line.now) stride lane line.now
        grid.old }
{
    for i in 0..line.len() {
        let at = base + i * stride;
        let v = line[i];
        grid[at] = v;
    }
}

// Copies the cells from base on, stride apart, into the line.
// Of 1 2 3 4 5 6 the two cells from place 1 on, 3 apart, are 2 5.
pub fn read_from(grid: &[i64], base: usize, stride: usize, line: &mut [i64])
    requires { base + length line.old * stride < length grid.now + stride }
    ensures { line.new ≡ lane_at (pos 0) grid.now base stride (length line.old) }
{
    if stride == 1 {
        gather(grid, base, 1, line);
    } else {
        gather(grid, base, stride, line);
    }
}

// Copies the line to the cells of the lane, whose first cell is at base.
// 7 8 written to lane 1 of axis 0 of the rows 1 2 3 / 4 5 6, with base 1 and stride 3, give 1 7 3 / 4 8 6.
pub fn write_from(line: &[i64], stride: usize, lane: usize, base: usize, grid: &mut [i64])
    requires { (0 < length line.now) × (0 < stride) × (base ≡ lane_base (length line.now) stride lane)
        × (base + length line.now * stride < length grid.old + stride) }
    ensures { grid.new ≡ with_lane (pos 0) (length line.now) stride lane line.now
        grid.old }
{
    if stride == 1 {
        scatter(line, 1, lane, base, grid);
    } else {
        scatter(line, stride, lane, base, grid);
    }
}

// Reads a lane of the grid into the line.
//
// * `grid` - the cells of the grid.
// * `stride` - how many places apart the cells of the axis stand (`lanes::lanes_of`).
// * `lane` - the number of the lane, counted from 0 in stored order of the lanes' first cells.
// * `line` - as long as the axis.
//
// Where the lane is not inside the grid, or the grid has over 32,768 cells, the line stays as it was.
// Lane 1 of axis 0 of the rows 1 2 3 / 4 5 6 is 2 5.
pub fn read_lane(grid: &[i64], stride: usize, lane: usize, line: &mut [i64])
    ensures { line.new ≡ read_lane (pos 0) stride lane grid.now line.old }
{
    let count = grid.len();
    let base = lanes::first_place(count, line.len(), stride, lane);
    if base != count {
        read_from(grid, base, stride, line);
    }
}
