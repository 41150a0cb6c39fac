// The level of a lane's own cells that fills its rims.
ghost use Rattle.std.specs.Prelude.{◌≡◌, true, ◌+◌, ◌≤◌, pos, length, take, drop};
ghost use Rattle.lanes.specs.Lanes.{lane, lane_base, lane_inside};
ghost use Rattle.pad_spec.specs.Fill.{statistic_of};

use pad_spec::Statistic;

// The level of a line that a statistic names; 0 of a line that mean and median do not serve.
fn level_of(statistic: Statistic, line: &[i64]) -> i64
    ensures { result ≡ statistic_of statistic line.now }
{
    match statistic {
        Statistic::Maximum => statistics::maximum(line),
        Statistic::Mean => statistics::mean(line),
        Statistic::Median => statistics::median(line),
        Statistic::Minimum => statistics::minimum(line),
    }
}

// The level of the own cells of lane `l`, which is read into the line first: a line as long as the lane with both rims.
fn level_by(
    statistic: Statistic,
    s: usize,
    l: usize,
    left: usize,
    n: usize,
    grid: &[i64],
    line: &mut [i64],
) -> i64
    requires { (lane_inside (length line.old) s l (length grid.now) ≡ true) × (left + n ≤ length line.old) }
    ensures { result ≡ statistic_of statistic (take n
        (drop left (lane (pos 0) (length line.old) s l grid.now))) }
{
    lane_cells::read_lane(grid, s, l, line);
    let e = left + n;
    level_of(statistic, &line[left..e])
}

// The level of the own cells of a lane of a grid. Where its cells stand side by side, the own ones are a part of the
// grid, and nothing is read into the line.
//
// * `statistic` - which level.
// * `base` - the place of the lane's first cell.
// * `p`, `s` - the cells of the lane with both rims, and how many places apart they stand.
// * `l` - the number of the lane, which is inside the grid.
// * `left`, `n` - the place in the lane where its own cells start, and how many they are.
// * `line` - a buffer no shorter than the lane, where its cells stand apart; else of any length.
//
// Of the cells 9 1 2 3 9, a lane of 5 cells with 3 of its own from place 1 on, the maximum is 3.
pub(crate) fn level_in(
    statistic: Statistic,
    base: usize,
    p: usize,
    s: usize,
    l: usize,
    left: usize,
    n: usize,
    grid: &[i64],
    line: &mut [i64],
) -> i64
    requires { (lane_inside p s l (length grid.now) ≡ true) × (base ≡ lane_base p s l) × (left + n ≤ p)
        × ((s ≡ 1 → ⊥) → p ≤ length line.old) }
    ensures { result ≡ statistic_of statistic (take n (drop left (lane (pos 0) p s l grid.now))) }
{
    if s == 1 {
        let a = base + left;
        let e = a + n;
        return level_of(statistic, &grid[a..e]);
    }
    level_by(statistic, s, l, left, n, grid, &mut line[..p])
}
