// A grid copied into the middle of a padded one, row by row.
ghost use Rattle.std.specs.Prelude.{◌≡◌, ◌+◌, ◌*◌, ◌≤◌, ◌<◌, length};
ghost use Rattle.numbers.specs.Limits.{most_padded_cells};
ghost use Rattle.array_spec.specs.Grid.{cell_count};
ghost use Rattle.pad_spec.specs.Frame.{Framed, row_length, row_set_lem, middle_set};
ghost use Rattle.pad_middle.specs.RowStarts.{RowStarts};

// Stores n cells of data, those from place `from` on, from place `at` of out on.
fn copy_row(data: &[i64], from: usize, n: usize, at: usize, out: &mut [i64])
    requires { (from + n ≤ length «data».now) × (at + n ≤ length out.old)
        × (length out.old ≤ most_padded_cells) }
    ensures { out.new ≡ row_set_lem «data».now from n at out.old }
{
    for j in 0..n {
        out[at + j] = data[from + j];
    }
}

// Where a row of the grid starts in the padded one: the place of its first cell, and on three axes how many rows of its
// plane stand before it.
#[derive(Clone, Copy)]
pub struct RowStart {
    pub place: usize,
    pub offset: usize,
}

// Where the first row of the grid starts in the padded one.
//
// * `shape` - the length of each axis of the grid.
// * `lefts`, `padded` - the pad before each axis, and its padded length.
//
// Supposes `Framed`. Of rows with pads of 1 on both sides, in rows of 5: place 6.
pub(crate) fn first_row(shape: &[usize], lefts: &[usize], padded: &[usize]) -> RowStart
    requires { Framed shape.now lefts.now padded.now }
    ensures { RowStarts shape.now lefts.now padded.now 0 result }
{
    if shape.len() == 1 {
        return RowStart {
            place: lefts[0],
            offset: 0,
        };
    }
    if shape.len() == 2 {
        return RowStart {
            place: lefts[0] * padded[1] + lefts[1],
            offset: 0,
        };
    }
    RowStart {
        place: (lefts[0] * padded[1] + lefts[1]) * padded[2] + lefts[2],
        offset: 0,
    }
}

// Where the next row starts, without a division: a padded row on, and at the end of a plane over the pads of the second
// axis too.
//
// * `shape` - the length of each axis of the grid.
// * `lefts`, `padded` - the pad before each axis, and its padded length.
// * `row`, `start` - the number of a row of the grid, and where it starts.
//
// Supposes `Framed`. Of rows with pads of 1 on both sides, in rows of 5, row 0 starts at place 6, row 1 at 11.
pub(crate) fn next_row(
    shape: &[usize],
    lefts: &[usize],
    padded: &[usize],
    row: usize,
    start: RowStart,
) -> RowStart
    requires { Framed shape.now lefts.now padded.now × RowStarts shape.now lefts.now padded.now row start
        × (row * row_length shape.now < cell_count shape.now) }
    ensures { RowStarts shape.now lefts.now padded.now (row + 1) result }
{
    if shape.len() < 3 {
        let last = shape.len() - 1;
        return RowStart {
            place: start.place + padded[last],
            offset: 0,
        };
    }
    let offset = start.offset + 1;
    if offset == shape[1] {
        return RowStart {
            place: start.place + (padded[1] - shape[1] + 1) * padded[2],
            offset: 0,
        };
    }
    RowStart {
        place: start.place + padded[2],
        offset,
    }
}

// Stores the cells of a grid in the middle of a padded grid; the rim stays as it was.
//
// * `data`, `shape` - the cells of the grid, and the length of each axis.
// * `lefts`, `padded` - the pad before each axis, and its padded length.
// * `out` - the padded grid.
//
// Supposes `Framed`. Of 1 2 with a pad of 1 before them, in 9 9 9 8: 9 1 2 8.
pub fn copy_middle(
    data: &[i64],
    shape: &[usize],
    lefts: &[usize],
    padded: &[usize],
    out: &mut [i64],
)
    requires { Framed shape.now lefts.now padded.now × (length «data».now ≡ cell_count shape.now)
        × (length out.old ≡ cell_count padded.now) }
    ensures { out.new ≡ middle_set shape.now lefts.now padded.now
        «data».now out.old }
{
    let last = shape.len() - 1;
    let n = shape[last];
    let rows = data.len() / n;
    let mut start = first_row(shape, lefts, padded);
    for row in 0..rows {
        let at = start.place;
        copy_row(data, row * n, n, at, out);
        start = next_row(shape, lefts, padded, row, start);
    }
}
