// The window of a cell in a padded line.
ghost use Rattle.std.specs.Prelude.{◌≡◌};
ghost use Rattle.numbers.specs.Windows.{window_of};

// The window of a cell: the part of a padded line from place i to i + len, i + len not included.
//
// * `line` - the padded line.
// * `i` - the number of the cell, counted from 0; its window starts at place i.
// * `len` - how many cells the window has.
//
// Where i + len passes the end of the line (or 2^64), the empty part at the line's start. The window of cell 1 of
// length 2 of 7 1 2 3 7 is 1 2.
pub fn window(line: &[i64], i: usize, len: usize) -> &[i64]
    ensures { result.now ≡ window_of line.now i len }
{
    let n = line.len();
    if n < len || n - len < i {
        return &line[..0];
    }
    let e = i + len;
    &line[i..e]
}

// As `window`, of float levels.
pub fn window_f64(line: &[f64], i: usize, len: usize) -> &[f64]
    ensures { result.now ≡ window_of line.now i len }
{
    let count = line.len();
    if count < len || count - len < i {
        return &line[..0];
    }
    let end = i + len;
    &line[i..end]
}
