// The rims under the modes that copy cells: Edge, Reflect, Symmetric and Wrap. Of each axis some blocks are filled at a
// time. Lent cells are copied too, onto places that are not in the middle on a later axis: filling that axis
// overwrites them.
ghost use Rattle.std.specs.Prelude.{◌≡◌, suc, ◌≤◌, ◌<◌, length};
ghost use Rattle.array_spec.specs.Grid.{cell_count};
ghost use Rattle.pad_spec.specs.Fill.{mode_along};
ghost use Rattle.pad_spec.specs.Filled.{Fills};
ghost use Rattle.pad_spec.specs.Frame.{Filling};
ghost use Rattle.pad_spec.specs.Runs.{Runs, axis_set};

use border::CellBorder;
use pad_copy_axis::copy_rims;

// About how many cells of the grid are filled together: 32 kB.
const NEAR_CELLS: usize = 4096;

// How many blocks are filled together: as many as stay in the cache while one coordinate after the other is copied.
fn few_blocks(block: usize) -> usize
    requires { 0 < block }
    ensures { 0 < result }
{
    NEAR_CELLS / block + 1
}

// The lesser of two numbers.
fn least(a: usize, b: usize) -> usize
    ensures { (result ≤ b) × (0 < a → 0 < b → 0 < result) }
{
    if a < b {
        return a;
    }
    b
}

// Fills both rims of the axis, `few` blocks at a time.
fn copy_blocks(
    mode: CellBorder,
    p: usize,
    s: usize,
    blocks: usize,
    few: usize,
    left: usize,
    n: usize,
    out: &mut [i64],
)
    requires { Runs mode p s blocks left n (length out.old) × (0 < few) }
    ensures { out.new ≡ axis_set mode p s left n out.old }
{
    // A `while`, since the last turn takes fewer blocks than `few`.
    let mut first = 0;
    while first < blocks {
        let count = least(few, blocks - first);
        let a = first * (p * s);
        let e = a + count * (p * s);
        copy_rims(mode, p, s, count, left, n, &mut out[a..e]);
        first += count;
    }
}

// Fills an axis: the places that are in the middle on every later axis then hold their levels, where those in the
// middle on this one too held them.
fn copy_axis(
    mode: CellBorder,
    shape: &[usize],
    lefts: &[usize],
    padded: &[usize],
    axis: usize,
    out: &mut [i64],
)
    requires { Filling mode shape.now lefts.now padded.now × (axis < length shape.now)
        × (length out.old ≡ cell_count padded.now) }
    ensures { Fills (mode_along mode) shape.now lefts.now padded.now axis
        (suc axis) out.old out.new }
{
    let p = array::len_of(padded, axis);
    let n = array::len_of(shape, axis);
    let s = lanes::stride_of(padded, axis);
    let block = p * s;
    let blocks = out.len() / block;
    let few = few_blocks(block);
    copy_blocks(mode, p, s, blocks, few, lefts[axis], n, out);
}

// Fills every axis in rising order: where the middle held its levels, every place then does.
//
// * `mode` - which cells of a lane it is extended by.
// * `shape` - the length of each axis of the grid in the middle.
// * `lefts`, `padded` - the pad before each axis, and its padded length.
// * `out` - the padded grid.
//
// Supposes `Filling`. Of 9 1 2 8 with 1 2 in the middle, under Wrap: 2 1 2 1.
pub fn copy_axes(
    mode: CellBorder,
    shape: &[usize],
    lefts: &[usize],
    padded: &[usize],
    out: &mut [i64],
)
    requires { Filling mode shape.now lefts.now padded.now × (length out.old ≡ cell_count padded.now) }
    ensures { Fills (mode_along mode) shape.now lefts.now padded.now 0
        (length shape.now) out.old out.new }
{
    for axis in 0..shape.len() {
        copy_axis(mode, shape, lefts, padded, axis, out);
    }
}
