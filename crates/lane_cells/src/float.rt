// As `lane_cells`, of float levels.
ghost use Rattle.std.specs.Prelude.{◌≡◌, ◌+◌, ◌*◌, ◌<◌, length};
ghost use Rattle.std.specs.Float.{nan};
ghost use Rattle.lanes.specs.Lanes.{lane_base, lane_at, with_lane};

// Copies the cells from base on, stride apart, into the line.
fn gather_f64(grid: &[f64], base: usize, stride: usize, line: &mut [f64])
    requires { base + length line.old * stride < length grid.now + stride }
    ensures { line.new ≡ lane_at nan grid.now base stride (length line.old) }
{
    for i in 0..line.len() {
        let at = base + i * stride;
        let v = grid[at];
        line[i] = v;
    }
}

// Copies the line to the cells of the lane, whose first cell is at base.
fn scatter_f64(line: &[f64], stride: usize, lane: usize, base: usize, grid: &mut [f64])
    requires { (0 < length line.now) × (0 < stride) × (base ≡ lane_base (length line.now) stride lane)
        × (base + length line.now * stride < length grid.old + stride) }
    ensures { grid.new ≡ with_lane nan (length line.now) stride lane line.now
        grid.old }
{
    for i in 0..line.len() {
        let at = base + i * stride;
        let v = line[i];
        grid[at] = v;
    }
}

// As `read_from`, of float levels.
pub fn read_from_f64(grid: &[f64], base: usize, stride: usize, line: &mut [f64])
    requires { base + length line.old * stride < length grid.now + stride }
    ensures { line.new ≡ lane_at nan grid.now base stride (length line.old) }
{
    if stride == 1 {
        gather_f64(grid, base, 1, line);
    } else {
        gather_f64(grid, base, stride, line);
    }
}

// As `write_from`, of float levels.
pub fn write_from_f64(line: &[f64], stride: usize, lane: usize, base: usize, grid: &mut [f64])
    requires { (0 < length line.now) × (0 < stride) × (base ≡ lane_base (length line.now) stride lane)
        × (base + length line.now * stride < length grid.old + stride) }
    ensures { grid.new ≡ with_lane nan (length line.now) stride lane line.now
        grid.old }
{
    if stride == 1 {
        scatter_f64(line, 1, lane, base, grid);
    } else {
        scatter_f64(line, stride, lane, base, grid);
    }
}
