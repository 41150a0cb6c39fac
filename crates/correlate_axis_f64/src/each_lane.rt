// The weighted sums of floats on every lane of an axis: each lane is padded into a line and summed, straight into out
// where its cells are neighbours, else through a buffer.
ghost use Rattle.std.specs.Prelude.{◌≡◌, ◌+◌, length};
ghost use Rattle.std.specs.Float.{nan};
ghost use Rattle.numbers.specs.Limits.{longest_line};
ghost use Rattle.array_spec.specs.Grid.{length_of, stride_of};
ghost use Rattle.lanes.specs.Lanes.{lane_at, along_axis};
ghost use Rattle.border.specs.Modes.{border_of_f64};
ghost use Rattle.direction.specs.Direction.{directed};
ghost use Rattle.pad_line.specs.Lane.{LineNeeds, AxisNeeds};
ghost use Rattle.correlate_spec.specs.Weighed.{float_ops};
ghost use Rattle.correlate_spec.specs.Correlated.{correlated_line};

use border::BorderModeF64;
use symmetry_spec::SymmetryState;

// Fills a row with the weighted sums of the lane of data that starts at place base and has as many cells as the row.
// The line has room for the padded lane.
fn correlate_lane(
    weights: &[f64],
    backward: bool,
    class: SymmetryState,
    mode: BorderModeF64,
    data: &[f64],
    base: usize,
    stride: usize,
    left: usize,
    right: usize,
    line: &mut [f64],
    row: &mut [f64],
)
    requires { LineNeeds (border_of_f64 mode) (length row.old) stride base left right «data».now line.old
        × (length weights.now ≡ left + right + 1) }
    ensures { row.new ≡ correlated_line float_ops class (border_of_f64 mode) left right
        (directed backward weights.now)
        (lane_at nan «data».now base stride (length row.old)) }
{
    let n = row.len();
    pad_line_f64::pad_from_f64(data, base, stride, n, mode, left, right, line);
    let total = left + n + right;
    correlate_line_f64::correlate_line_f64(weights, backward, class, &line[..total], row);
}

// The sums on every lane of an axis whose cells are neighbours: each lane is summed straight into its part of out. The
// line is a buffer of 1,088 cells.
fn correlate_rows(
    weights: &[f64],
    backward: bool,
    class: SymmetryState,
    mode: BorderModeF64,
    data: &[f64],
    shape: &[usize],
    axis: usize,
    left: usize,
    right: usize,
    line: &mut [f64],
    out: &mut [f64],
)
    requires { AxisNeeds (border_of_f64 mode) shape.now axis left right «data».now out.old
        × (length weights.now ≡ left + right + 1) × (length line.old ≡ longest_line)
        × (stride_of shape.now axis ≡ 1) }
    ensures { out.new ≡ along_axis nan
        (correlated_line float_ops class (border_of_f64 mode) left right (directed backward weights.now))
        shape.now axis «data».now }
{
    let along = lanes::lanes_of(shape, axis);
    let n = along.len;
    let count = along.count;
    let mut base = 0;
    for lane in 0..count {
        let e = base + n;
        correlate_lane(
            weights,
            backward,
            class,
            mode,
            data,
            base,
            1,
            left,
            right,
            line,
            &mut out[base..e],
        );
        base = e;
    }
}

// The sums on every lane of any axis: each lane is summed into swept, which is as long as the axis, and written to its
// cells of out.
fn correlate_lanes(
    weights: &[f64],
    backward: bool,
    class: SymmetryState,
    mode: BorderModeF64,
    data: &[f64],
    shape: &[usize],
    axis: usize,
    left: usize,
    right: usize,
    line: &mut [f64],
    swept: &mut [f64],
    out: &mut [f64],
)
    requires { AxisNeeds (border_of_f64 mode) shape.now axis left right «data».now out.old
        × (length weights.now ≡ left + right + 1) × (length line.old ≡ longest_line)
        × (length swept.old ≡ length_of shape.now axis) }
    ensures { out.new ≡ along_axis nan
        (correlated_line float_ops class (border_of_f64 mode) left right (directed backward weights.now))
        shape.now axis «data».now }
{
    let along = lanes::lanes_of(shape, axis);
    let n = along.len;
    let stride = along.stride;
    let count = along.count;
    let mut start = lanes::Start {
        place: 0,
        offset: 0,
    };
    for lane in 0..count {
        correlate_lane(
            weights,
            backward,
            class,
            mode,
            data,
            start.place,
            stride,
            left,
            right,
            line,
            swept,
        );
        lane_cells::write_from_f64(swept, stride, lane, start.place, out);
        start = lanes::next_start(n, stride, lane, start);
    }
}

// As correlate_lanes, with a buffer of its own for the sums of a lane: a call on neighbouring cells does not clear it.
fn correlate_columns(
    weights: &[f64],
    backward: bool,
    class: SymmetryState,
    mode: BorderModeF64,
    data: &[f64],
    shape: &[usize],
    axis: usize,
    left: usize,
    right: usize,
    line: &mut [f64],
    out: &mut [f64],
)
    requires { AxisNeeds (border_of_f64 mode) shape.now axis left right «data».now out.old
        × (length weights.now ≡ left + right + 1) × (length line.old ≡ longest_line) }
    ensures { out.new ≡ along_axis nan
        (correlated_line float_ops class (border_of_f64 mode) left right (directed backward weights.now))
        shape.now axis «data».now }
{
    let n = array::len_of(shape, axis);
    let mut swept = [0.0; numbers::LONGEST_AXIS];
    correlate_lanes(
        weights,
        backward,
        class,
        mode,
        data,
        shape,
        axis,
        left,
        right,
        line,
        &mut swept[..n],
        out,
    );
}

// Fills out with the weighted sums of the lanes of the axis of data: left and right are the pads of a window of left +
// right + 1 cells.
pub fn correlate_axis_f64(
    weights: &[f64],
    backward: bool,
    class: SymmetryState,
    mode: BorderModeF64,
    data: &[f64],
    shape: &[usize],
    axis: usize,
    left: usize,
    right: usize,
    out: &mut [f64],
)
    requires { AxisNeeds (border_of_f64 mode) shape.now axis left right «data».now out.old
        × (length weights.now ≡ left + right + 1) }
    ensures { out.new ≡ along_axis nan
        (correlated_line float_ops class (border_of_f64 mode) left right (directed backward weights.now))
        shape.now axis «data».now }
{
    let mut line = [0.0; numbers::LONGEST_LINE];
    if lanes::stride_of(shape, axis) == 1 {
        correlate_rows(
            weights, backward, class, mode, data, shape, axis, left, right, &mut line, out,
        );
        return;
    }
    correlate_columns(
        weights, backward, class, mode, data, shape, axis, left, right, &mut line, out,
    );
}
