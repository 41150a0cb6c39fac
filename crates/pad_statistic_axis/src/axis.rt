// An axis of a padded grid filled with a statistic of each lane: those lanes are filled whose later coordinates are in
// the middle, so that no lent cell is ever read.
ghost use Rattle.std.specs.Prelude.{◌≡◌, cond, suc, ◌/◌, ◌<◌, length, get_or};
ghost use Rattle.numbers.specs.Limits.{longest_padded_axis};
ghost use Rattle.array_spec.specs.Grid.{cell_count, length_of, stride_of, coordinate};
ghost use Rattle.lanes.specs.Lanes.{lane_base};
ghost use Rattle.pad_spec.specs.Fill.{mode_taking, filled_lane};
ghost use Rattle.pad_spec.specs.Pads.{middle_from};
ghost use Rattle.pad_spec.specs.Filled.{Fills};
ghost use Rattle.pad_spec.specs.Frame.{Framed};

use crate::place::middle_from;
use pad_spec::Statistic;

// Fills a lane of an axis, where its coordinates on later axes are in the middle; the lanes of the axis have p cells, s
// apart.
fn fill_lane(
    statistic: Statistic,
    shape: &[usize],
    lefts: &[usize],
    padded: &[usize],
    axis: usize,
    p: usize,
    s: usize,
    lane: usize,
    line: &mut [i64],
    out: &mut [i64],
)
    requires { Framed shape.now lefts.now padded.now × (axis < length shape.now)
        × ((s ≡ 1 → ⊥) → length line.old ≡ longest_padded_axis) × (length out.old ≡ cell_count padded.now)
        × (p ≡ length_of padded.now axis) × (s ≡ stride_of padded.now axis) × (lane < cell_count padded.now / p) }
    ensures { out.new ≡ cond (middle_from shape.now lefts.now (suc axis)
        (coordinate padded.now (lane_base p s lane)))
        (filled_lane statistic p s lane (get_or lefts.now axis 0) (length_of shape.now axis)
        out.old) out.old }
{
    let first = lanes::first_place(out.len(), p, s, lane);
    if !middle_from(shape, lefts, padded, axis + 1, first) {
        return;
    }
    crate::rims::fill_lane(
        statistic,
        p,
        s,
        lane,
        lefts[axis],
        array::len_of(shape, axis),
        line,
        out,
    );
}

// Fills an axis: the places that are in the middle on every later axis then hold their levels, where those in the
// middle on this one too held them.
//
// * `statistic` - which level of a lane's own cells fills its rims.
// * `shape` - the length of each axis of the grid in the middle.
// * `lefts`, `padded` - the pad before each axis, and its padded length.
// * `axis` - the axis that is filled.
// * `line` - a buffer of 1,152 cells, where the cells of a lane stand apart; else of any length.
// * `out` - the padded grid.
//
// Supposes `Framed`. Of 9 1 2 8 with 1 2 in the middle, axis 0 by Statistic::Maximum: 2 1 2 2.
pub fn fill_axis(
    statistic: Statistic,
    shape: &[usize],
    lefts: &[usize],
    padded: &[usize],
    axis: usize,
    line: &mut [i64],
    out: &mut [i64],
)
    requires { Framed shape.now lefts.now padded.now × (axis < length shape.now)
        × ((stride_of padded.now axis ≡ 1 → ⊥) → length line.old ≡ longest_padded_axis)
        × (length out.old ≡ cell_count padded.now) }
    ensures { Fills (mode_taking statistic) shape.now lefts.now padded.now axis
        (suc axis) out.old out.new }
{
    let p = array::len_of(padded, axis);
    if p == array::len_of(shape, axis) {
        // No pads here: the axis has no rim.
        return;
    }
    let s = lanes::stride_of(padded, axis);
    let count = out.len() / p;
    for lane in 0..count {
        fill_lane(statistic, shape, lefts, padded, axis, p, s, lane, line, out);
    }
}
