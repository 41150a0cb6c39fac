// The weighted sums of whole levels on every lane of an axis: each lane is padded into a line and summed, straight into
// out where its cells are neighbours, else through a buffer.
ghost use Rattle.std.specs.Prelude.{◌≡◌, ◌+◌, pos, length};
ghost use Rattle.numbers.specs.Limits.{longest_line};
ghost use Rattle.array_spec.specs.Grid.{length_of, stride_of};
ghost use Rattle.lanes.specs.Lanes.{lane_at, along_axis};
ghost use Rattle.border.specs.Modes.{border_of};
ghost use Rattle.symmetry_spec.specs.declared.SymmetryState.TheVariants.{NonSymmetric};
ghost use Rattle.direction.specs.Direction.{directed};
ghost use Rattle.pad_line.specs.Lane.{LineNeeds, AxisNeeds};
ghost use Rattle.correlate_spec.specs.Weighed.{whole_ops};
ghost use Rattle.correlate_spec.specs.Correlated.{correlated_line};
ghost use Rattle.correlate_axis.specs.WeightNeeds.{WeightNeeds};

use border::BorderMode;

// Fills a row with the weighted sums of the lane of data that starts at place base and has as many cells as the row.
// The line has room for the padded lane; it is lent to be changed, since the sums may raise its cells.
fn correlate_lane(
    weights: &[i64],
    backward: bool,
    mode: BorderMode,
    data: &[i64],
    base: usize,
    stride: usize,
    left: usize,
    right: usize,
    line: &mut [i64],
    row: &mut [i64],
)
    requires { LineNeeds (border_of mode) (length row.old) stride base left right «data».now line.old
        × (length weights.now ≡ left + right + 1) × WeightNeeds weights.now (border_of mode) «data».now }
    ensures { row.new ≡ correlated_line whole_ops NonSymmetric (border_of mode) left right
        (directed backward weights.now)
        (lane_at (pos 0) «data».now base stride (length row.old)) }
{
    let n = row.len();
    pad_line::pad_from(data, base, stride, n, mode, left, right, line);
    let total = left + n + right;
    correlate_line::correlate_line(weights, backward, &mut line[..total], row);
}

// The sums on every lane of an axis whose cells are neighbours: each lane is summed straight into its part of out. The
// line is a buffer of 1,088 cells.
fn correlate_rows(
    weights: &[i64],
    backward: bool,
    mode: BorderMode,
    data: &[i64],
    shape: &[usize],
    axis: usize,
    left: usize,
    right: usize,
    line: &mut [i64],
    out: &mut [i64],
)
    requires { AxisNeeds (border_of mode) shape.now axis left right «data».now out.old
        × (length weights.now ≡ left + right + 1) × WeightNeeds weights.now (border_of mode) «data».now
        × (length line.old ≡ longest_line) × (stride_of shape.now axis ≡ 1) }
    ensures { out.new ≡ along_axis (pos 0)
        (correlated_line whole_ops NonSymmetric (border_of mode) left right (directed backward weights.now))
        shape.now axis «data».now }
{
    let along = lanes::lanes_of(shape, axis);
    let n = along.len;
    let count = along.count;
    let mut base = 0;
    for lane in 0..count {
        let e = base + n;
        correlate_lane(
            weights,
            backward,
            mode,
            data,
            base,
            1,
            left,
            right,
            line,
            &mut out[base..e],
        );
        base = e;
    }
}

// The sums on every lane of any axis: each lane is summed into swept, which is as long as the axis, and written to its
// cells of out.
fn correlate_lanes(
    weights: &[i64],
    backward: bool,
    mode: BorderMode,
    data: &[i64],
    shape: &[usize],
    axis: usize,
    left: usize,
    right: usize,
    line: &mut [i64],
    swept: &mut [i64],
    out: &mut [i64],
)
    requires { AxisNeeds (border_of mode) shape.now axis left right «data».now out.old
        × (length weights.now ≡ left + right + 1) × WeightNeeds weights.now (border_of mode) «data».now
        × (length line.old ≡ longest_line) × (length swept.old ≡ length_of shape.now axis) }
    ensures { out.new ≡ along_axis (pos 0)
        (correlated_line whole_ops NonSymmetric (border_of mode) left right (directed backward weights.now))
        shape.now axis «data».now }
{
    let along = lanes::lanes_of(shape, axis);
    let n = along.len;
    let stride = along.stride;
    let count = along.count;
    let mut start = lanes::Start {
        place: 0,
        offset: 0,
    };
    for lane in 0..count {
        correlate_lane(
            weights,
            backward,
            mode,
            data,
            start.place,
            stride,
            left,
            right,
            line,
            swept,
        );
        lane_cells::write_from(swept, stride, lane, start.place, out);
        start = lanes::next_start(n, stride, lane, start);
    }
}

// As correlate_lanes, with a buffer of its own for the sums of a lane: a call on neighbouring cells does not clear it.
fn correlate_columns(
    weights: &[i64],
    backward: bool,
    mode: BorderMode,
    data: &[i64],
    shape: &[usize],
    axis: usize,
    left: usize,
    right: usize,
    line: &mut [i64],
    out: &mut [i64],
)
    requires { AxisNeeds (border_of mode) shape.now axis left right «data».now out.old
        × (length weights.now ≡ left + right + 1) × WeightNeeds weights.now (border_of mode) «data».now
        × (length line.old ≡ longest_line) }
    ensures { out.new ≡ along_axis (pos 0)
        (correlated_line whole_ops NonSymmetric (border_of mode) left right (directed backward weights.now))
        shape.now axis «data».now }
{
    let n = array::len_of(shape, axis);
    let mut swept = [0; numbers::LONGEST_AXIS];
    correlate_lanes(
        weights,
        backward,
        mode,
        data,
        shape,
        axis,
        left,
        right,
        line,
        &mut swept[..n],
        out,
    );
}

// Fills out with the weighted sums of the lanes of the axis of data: left and right are the pads of a window of left +
// right + 1 cells.
pub fn correlate_axis(
    weights: &[i64],
    backward: bool,
    mode: BorderMode,
    data: &[i64],
    shape: &[usize],
    axis: usize,
    left: usize,
    right: usize,
    out: &mut [i64],
)
    requires { AxisNeeds (border_of mode) shape.now axis left right «data».now out.old
        × (length weights.now ≡ left + right + 1) × WeightNeeds weights.now (border_of mode) «data».now }
    ensures { out.new ≡ along_axis (pos 0)
        (correlated_line whole_ops NonSymmetric (border_of mode) left right (directed backward weights.now))
        shape.now axis «data».now }
{
    let mut line = [0; numbers::LONGEST_LINE];
    if lanes::stride_of(shape, axis) == 1 {
        correlate_rows(
            weights, backward, mode, data, shape, axis, left, right, &mut line, out,
        );
        return;
    }
    correlate_columns(
        weights, backward, mode, data, shape, axis, left, right, &mut line, out,
    );
}
