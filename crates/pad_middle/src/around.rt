// A padded grid set to a constant around its middle: the gaps between the rows of the grid, and what stands before the
// first and after the last.
ghost use Rattle.std.specs.Prelude.{◌≡◌, ◌≤◌, length};
ghost use Rattle.array_spec.specs.Grid.{cell_count};
ghost use Rattle.pad_spec.specs.Frame.{Framed};
ghost use Rattle.pad_middle.specs.Around.{gap_set, around_set};

use crate::middle::{first_row, next_row};

// Sets the places from `from` on, up to `to`, to a level.
fn fill_gap(level: i64, from: usize, to: usize, out: &mut [i64])
    requires { to ≤ length out.old }
    ensures { out.new ≡ gap_set level from to out.old }
{
    for k in from..to {
        out[k] = level;
    }
}

// Sets every place of a padded grid that is not in the middle to a level; the middle stays as it was.
//
// * `level` - the constant.
// * `cells`, `shape` - how many cells the grid has, and the length of each axis.
// * `lefts`, `padded` - the pad before each axis, and its padded length.
// * `out` - the padded grid.
//
// Supposes `Framed`. Of 9 1 2 9 with 2 cells from 1 on, and the level 7: 7 1 2 7.
pub fn fill_around(
    level: i64,
    cells: usize,
    shape: &[usize],
    lefts: &[usize],
    padded: &[usize],
    out: &mut [i64],
)
    requires { Framed shape.now lefts.now padded.now × (cells ≡ cell_count shape.now)
        × (length out.old ≡ cell_count padded.now) }
    ensures { out.new ≡ around_set level shape.now lefts.now padded.now
        out.old }
{
    let last = shape.len() - 1;
    let n = shape[last];
    let rows = cells / n;
    let mut start = first_row(shape, lefts, padded);
    let mut done = 0;
    for row in 0..rows {
        let at = start.place;
        fill_gap(level, done, at, out);
        done = at + n;
        start = next_row(shape, lefts, padded, row, start);
    }
    let end = out.len();
    fill_gap(level, done, end, out);
}
