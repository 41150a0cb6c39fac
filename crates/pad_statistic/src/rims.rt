// The rims of a padded grid filled with a statistic of each lane, axis by axis in rising order.
ghost use Rattle.std.specs.Prelude.{◌≡◌, length};
ghost use Rattle.numbers.specs.Limits.{longest_padded_axis};
ghost use Rattle.array_spec.specs.Grid.{cell_count};
ghost use Rattle.pad_spec.specs.Fill.{mode_taking};
ghost use Rattle.pad_spec.specs.Filled.{Fills};
ghost use Rattle.pad_spec.specs.Frame.{Framed};

use pad_spec::Statistic;
use pad_statistic_axis::fill_axis;

// Fills every axis in rising order; the line is a buffer of 1,152 cells.
fn fill_in(
    statistic: Statistic,
    shape: &[usize],
    lefts: &[usize],
    padded: &[usize],
    line: &mut [i64],
    out: &mut [i64],
)
    requires { Framed shape.now lefts.now padded.now × (length line.old ≡ longest_padded_axis)
        × (length out.old ≡ cell_count padded.now) }
    ensures { Fills (mode_taking statistic) shape.now lefts.now padded.now 0
        (length shape.now) out.old out.new }
{
    for axis in 0..shape.len() {
        fill_axis(statistic, shape, lefts, padded, axis, line, out);
    }
}

// Fills every axis of any grid; the line that lanes are read into is set to 0 once.
fn fill_by_line(
    statistic: Statistic,
    shape: &[usize],
    lefts: &[usize],
    padded: &[usize],
    out: &mut [i64],
)
    requires { Framed shape.now lefts.now padded.now × (length out.old ≡ cell_count padded.now) }
    ensures { Fills (mode_taking statistic) shape.now lefts.now padded.now 0
        (length shape.now) out.old out.new }
{
    let mut line = [0; numbers::LONGEST_PADDED_AXIS];
    fill_in(statistic, shape, lefts, padded, &mut line, out);
}

// Fills every axis: where the middle held its levels, every place then does. The cells of a grid of one axis stand side
// by side, and no lane is read into a line.
//
// * `statistic` - which level of a lane's own cells fills its rims.
// * `shape` - the length of each axis of the grid in the middle.
// * `lefts`, `padded` - the pad before each axis, and its padded length.
// * `out` - the padded grid.
//
// Supposes `Framed`. Of 9 1 2 8 with 1 2 in the middle, by Statistic::Minimum: 1 1 2 1.
pub fn fill_levels(
    statistic: Statistic,
    shape: &[usize],
    lefts: &[usize],
    padded: &[usize],
    out: &mut [i64],
)
    requires { Framed shape.now lefts.now padded.now × (length out.old ≡ cell_count padded.now) }
    ensures { Fills (mode_taking statistic) shape.now lefts.now padded.now 0
        (length shape.now) out.old out.new }
{
    if shape.len() == 1 {
        let mut none = [0; 0];
        fill_axis(statistic, shape, lefts, padded, 0, &mut none, out);
        return;
    }
    fill_by_line(statistic, shape, lefts, padded, out);
}
