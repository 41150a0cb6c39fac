// Both rims of the lanes of an axis, copied from the lanes' own cells, which never change: coordinate by coordinate,
// and where the cells of a lane stand side by side, lane by lane, unless the rims are short.
ghost use Rattle.std.specs.Prelude.{true, ◌≡◌, ℕ, ◌+◌, ◌≤◌, ◌<◌, length};
ghost use Rattle.pad_spec.specs.Runs.{Runs, InRim, rim_set, axis_set};

use crate::coordinate::copy_coordinate;
use crate::side::{copy_side, read_from};
use border::CellBorder;

// From so many cells on a rim is copied lane by lane sooner than coordinate by coordinate.
const LONG_RIM: usize = 4;

// Whether a rim of `count` cells is copied lane by lane: only where the cells of a lane stand side by side.
fn lane_by_lane(s: usize, blocks: usize, count: usize) -> bool
    ensures { result ≡ true → s ≡ 1 }
{
    s == 1 && (blocks == 1 || LONG_RIM <= count)
}

// Fills `count` coordinates of the axis, those from `a` on, which are in one rim.
fn copy_rim(
    mode: CellBorder,
    p: usize,
    s: usize,
    blocks: usize,
    left: usize,
    n: usize,
    a: usize,
    count: usize,
    out: &mut [i64],
)
    requires { Runs mode p s blocks left n (length out.old)
        × ((k : ℕ) → a ≤ k → k < a + count → InRim left n p k) }
    ensures { out.new ≡ rim_set mode p s left n a count out.old }
{
    if lane_by_lane(s, blocks, count) {
        copy_side(mode, p, blocks, left, n, a, count, out);
        return;
    }
    for j in 0..count {
        let at = a + j;
        let from = read_from(mode, left, n, p, at);
        copy_coordinate(from, at, p, s, blocks, out);
    }
}

// Fills both rims of every lane of an axis, in a grid that is whole blocks.
//
// * `mode` - which cells of a lane it is extended by.
// * `p`, `s` - the cells of a lane, and the places from one to the next.
// * `blocks` - how many blocks of p * s cells the grid is.
// * `left`, `n` - where the lanes' own cells start, and how many they are.
// * `out` - the grid.
//
// Supposes `Runs`. Of 9 9 1 2 3 4 9 9, a block of p = 4 and s = 2 with 2 own cells from 1 on, under Wrap: 3 4 1 2 3 4 1
// 2.
pub fn copy_rims(
    mode: CellBorder,
    p: usize,
    s: usize,
    blocks: usize,
    left: usize,
    n: usize,
    out: &mut [i64],
)
    requires { Runs mode p s blocks left n (length out.old) }
    ensures { out.new ≡ axis_set mode p s left n out.old }
{
    let e = left + n;
    copy_rim(mode, p, s, blocks, left, n, 0, left, out);
    copy_rim(mode, p, s, blocks, left, n, e, p - e, out);
}
