// The least, or the greatest, of each window of a line. For a caller that knows that the ring serves the line, as the
// loop over lanes does, there is one function that does not ask.
ghost use Rattle.std.specs.Prelude.{◌≡◌, length};
ghost use Rattle.std.specs.Int.Signed.{le_z};
ghost use Rattle.numbers.specs.Order.{at_least};
ghost use Rattle.min_max_ring.specs.Extremes.{RingNeeds, extremes, swept_by};

use crate::minlist::{sweep, windows};
use crate::order::{Greatest, Least};

// As `minimum_line`, of a line that the ring serves.
pub fn minimum_windows(line: &[i64], len: usize, out: &mut [i64])
    requires { RingNeeds (length line.now) len (length out.old) }
    ensures { out.new ≡ extremes le_z line.now len (length out.old) }
{
    windows::<Least>(line, len, out);
}

// As `maximum_line`, of a line that the ring serves.
pub fn maximum_windows(line: &[i64], len: usize, out: &mut [i64])
    requires { RingNeeds (length line.now) len (length out.old) }
    ensures { out.new ≡ extremes at_least line.now len (length out.old) }
{
    windows::<Greatest>(line, len, out);
}

// Writes the least of each window of a line.
//
// * `line` - at most 1,088 cells.
// * `len` - the cells of a window, 2 to 65.
// * `out` - a cell for each window, line.len() + 1 - len of them: cell i gets the least of line[i .. i + len].
//
// Where one of these does not hold, out stays as it was. The line 4 4 2 7 1 1 with windows of 3 gives 2 2 1 1.
pub fn minimum_line(line: &[i64], len: usize, out: &mut [i64])
    ensures { out.new ≡ swept_by le_z line.now len out.old }
{
    sweep::<Least>(line, len, out);
}

// Writes the greatest of each window of a line.
//
// * `line` - at most 1,088 cells.
// * `len` - the cells of a window, 2 to 65.
// * `out` - a cell for each window, line.len() + 1 - len of them: cell i gets the greatest of line[i .. i + len].
//
// Where one of these does not hold, out stays as it was. The line 4 4 2 7 1 1 with windows of 3 gives 4 7 7 7.
pub fn maximum_line(line: &[i64], len: usize, out: &mut [i64])
    ensures { out.new ≡ swept_by at_least line.now len out.old }
{
    sweep::<Greatest>(line, len, out);
}
