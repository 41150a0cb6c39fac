// What a rim reads of its lane, and a rim of every lane of neighbouring cells copied lane by lane: from one cell of a
// rim to the next the cell that is read moves by one step.
ghost use Rattle.std.specs.Prelude.{◌≡◌, ℕ, ◌+◌, ◌≤◌, ◌<◌, length};
ghost use Rattle.numbers.specs.Limits.{longest_padded_axis};
ghost use Rattle.pad_spec.specs.Runs.{Runs, InRim, read_from, rim_set};
ghost use Rattle.pad_copy_axis.specs.Steps.{StepsOf};

use border::CellBorder;
use pad_line::copy_steps;

// The coordinate that a coordinate in a rim reads.
//
// * `mode` - which cells of a lane it is extended by.
// * `left`, `n` - where the lane's own cells start, and how many they are.
// * `p` - the cells of the lane.
// * `k` - a coordinate in a rim.
//
// Supposes what it is handed. Of 7 cells with 3 own ones from 2 on, 0 under Wrap reads 3.
pub(crate) fn read_from(mode: CellBorder, left: usize, n: usize, p: usize, k: usize) -> usize
    requires { (left + n ≤ p) × (p ≤ longest_padded_axis) × InRim left n p k }
    ensures { result ≡ read_from mode left n k }
{
    if k < left {
        return left + border::cell_before(mode, n, left - k);
    }
    left + border::cell_after(mode, n, k + 1 - (left + n))
}

// Fills `count` cells of each lane, those from `a` on, by the steps of a mode. It is called with constants for these,
// of which the compiler makes a loop for each mode.
fn copy_lanes(
    mode: CellBorder,
    up: usize,
    down: usize,
    from: usize,
    p: usize,
    blocks: usize,
    left: usize,
    n: usize,
    a: usize,
    count: usize,
    out: &mut [i64],
)
    requires { Runs mode p 1 blocks left n (length out.old) × ((k : ℕ) → a ≤ k → k < a + count → InRim left n p k)
        × (0 < count) × StepsOf mode left n a from up down }
    ensures { out.new ≡ rim_set mode p 1 left n a count out.old }
{
    for lane in 0..blocks {
        let first = lane * p;
        copy_steps(up, down, first + from, first + a, count, out);
    }
}

// Fills cells of one rim in every lane of a grid whose lanes stand one after the other.
//
// * `mode` - which cells of a lane it is extended by.
// * `p`, `blocks` - the cells of a lane, and how many lanes there are.
// * `left`, `n` - where the lanes' own cells start, and how many they are.
// * `a`, `count` - the first cell of a lane that is filled, and how many are.
// * `out` - the grid.
//
// Supposes `Runs`. Of 9 1 2 3 9 with 3 own cells from 1 on, 1 cell from 4 on under Wrap: 9 1 2 3 1.
pub(crate) fn copy_side(
    mode: CellBorder,
    p: usize,
    blocks: usize,
    left: usize,
    n: usize,
    a: usize,
    count: usize,
    out: &mut [i64],
)
    requires { Runs mode p 1 blocks left n (length out.old)
        × ((k : ℕ) → a ≤ k → k < a + count → InRim left n p k) }
    ensures { out.new ≡ rim_set mode p 1 left n a count out.old }
{
    if count == 0 {
        return;
    }
    let from = read_from(mode, left, n, p, a);
    match mode {
        CellBorder::Nearest => copy_lanes(mode, 0, 0, from, p, blocks, left, n, a, count, out),
        CellBorder::Mirror => copy_lanes(mode, 0, 1, from, p, blocks, left, n, a, count, out),
        CellBorder::Reflect => copy_lanes(mode, 0, 1, from, p, blocks, left, n, a, count, out),
        CellBorder::Wrap => copy_lanes(mode, 1, 0, from, p, blocks, left, n, a, count, out),
    }
}
