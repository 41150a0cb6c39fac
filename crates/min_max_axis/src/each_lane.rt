// The extremes on every lane of an axis: each lane is padded into a line and its windows are swept, straight into out
// where its cells are neighbours, else through a buffer.
ghost use Rattle.std.specs.Prelude.{◌≡◌, ◌+◌, ◌<◌, pos, length};
ghost use Rattle.numbers.specs.Limits.{longest_line};
ghost use Rattle.array_spec.specs.Grid.{length_of, stride_of};
ghost use Rattle.lanes.specs.Lanes.{lane_at, along_axis};
ghost use Rattle.border.specs.Modes.{border_of};
ghost use Rattle.pad_line.specs.Lane.{LineNeeds, AxisNeeds};
ghost use Rattle.min_max_ring.specs.Extremes.{extremes, RingNeeds};
ghost use Rattle.min_max_axis.specs.Lane.{order_of, extremes_of};

use crate::extreme::Extreme;
use border::BorderMode;

// Writes the least or the greatest level of each window of a padded line.
fn filter_line(extreme: Extreme, size: usize, line: &[i64], out: &mut [i64])
    requires { RingNeeds (length line.now) size (length out.old) }
    ensures { out.new ≡ extremes (order_of extreme) line.now size
        (length out.old) }
{
    match extreme {
        Extreme::Least => min_max_line::minimum_windows(line, size, out),
        Extreme::Greatest => min_max_line::maximum_windows(line, size, out),
    }
}

// Fills a row with the extremes of the lane of data that starts at place base and has as many cells as the row. The
// line has room for the padded lane.
fn filter_lane(
    extreme: Extreme,
    mode: BorderMode,
    data: &[i64],
    base: usize,
    stride: usize,
    left: usize,
    right: usize,
    line: &mut [i64],
    row: &mut [i64],
)
    requires { LineNeeds (border_of mode) (length row.old) stride base left right «data».now line.old
        × (0 < left + right) }
    ensures { row.new ≡ extremes_of (order_of extreme) (border_of mode) left right
        (lane_at (pos 0) «data».now base stride (length row.old)) }
{
    let n = row.len();
    pad_line::pad_from(data, base, stride, n, mode, left, right, line);
    let total = left + n + right;
    filter_line(extreme, left + right + 1, &line[..total], row);
}

// The extremes on every lane of an axis whose cells are neighbours: each lane is filtered straight into its part of
// out. The line is a buffer of 1,088 cells.
fn filter_rows(
    extreme: Extreme,
    mode: BorderMode,
    data: &[i64],
    shape: &[usize],
    axis: usize,
    left: usize,
    right: usize,
    line: &mut [i64],
    out: &mut [i64],
)
    requires { AxisNeeds (border_of mode) shape.now axis left right «data».now out.old × (0 < left + right)
        × (length line.old ≡ longest_line) × (stride_of shape.now axis ≡ 1) }
    ensures { out.new ≡ along_axis (pos 0) (extremes_of (order_of extreme) (border_of mode) left right)
        shape.now axis «data».now }
{
    let along = lanes::lanes_of(shape, axis);
    let n = along.len;
    let count = along.count;
    let mut base = 0;
    for lane in 0..count {
        let e = base + n;
        filter_lane(
            extreme,
            mode,
            data,
            base,
            1,
            left,
            right,
            line,
            &mut out[base..e],
        );
        base = e;
    }
}

// The extremes on every lane of any axis: each lane is filtered into swept, which is as long as the axis, and written
// to its cells of out.
fn filter_lanes(
    extreme: Extreme,
    mode: BorderMode,
    data: &[i64],
    shape: &[usize],
    axis: usize,
    left: usize,
    right: usize,
    line: &mut [i64],
    swept: &mut [i64],
    out: &mut [i64],
)
    requires { AxisNeeds (border_of mode) shape.now axis left right «data».now out.old × (0 < left + right)
        × (length line.old ≡ longest_line) × (length swept.old ≡ length_of shape.now axis) }
    ensures { out.new ≡ along_axis (pos 0) (extremes_of (order_of extreme) (border_of mode) left right)
        shape.now axis «data».now }
{
    let along = lanes::lanes_of(shape, axis);
    let n = along.len;
    let stride = along.stride;
    let count = along.count;
    let mut start = lanes::Start {
        place: 0,
        offset: 0,
    };
    for lane in 0..count {
        filter_lane(
            extreme,
            mode,
            data,
            start.place,
            stride,
            left,
            right,
            line,
            swept,
        );
        lane_cells::write_from(swept, stride, lane, start.place, out);
        start = lanes::next_start(n, stride, lane, start);
    }
}

// As filter_lanes, with a buffer of its own for the filtered lane: a call on neighbouring cells does not clear it.
fn filter_columns(
    extreme: Extreme,
    mode: BorderMode,
    data: &[i64],
    shape: &[usize],
    axis: usize,
    left: usize,
    right: usize,
    line: &mut [i64],
    out: &mut [i64],
)
    requires { AxisNeeds (border_of mode) shape.now axis left right «data».now out.old × (0 < left + right)
        × (length line.old ≡ longest_line) }
    ensures { out.new ≡ along_axis (pos 0) (extremes_of (order_of extreme) (border_of mode) left right)
        shape.now axis «data».now }
{
    let n = array::len_of(shape, axis);
    let mut swept = [0; numbers::LONGEST_AXIS];
    filter_lanes(
        extreme,
        mode,
        data,
        shape,
        axis,
        left,
        right,
        line,
        &mut swept[..n],
        out,
    );
}

// Fills out with the extremes of the lanes of the axis of data: left and right are the pads of a window of left + right
// + 1 cells, two or more.
pub(crate) fn filter_axis(
    extreme: Extreme,
    mode: BorderMode,
    data: &[i64],
    shape: &[usize],
    axis: usize,
    left: usize,
    right: usize,
    out: &mut [i64],
)
    requires { AxisNeeds (border_of mode) shape.now axis left right «data».now out.old × (0 < left + right) }
    ensures { out.new ≡ along_axis (pos 0) (extremes_of (order_of extreme) (border_of mode) left right)
        shape.now axis «data».now }
{
    let mut line = [0; numbers::LONGEST_LINE];
    if lanes::stride_of(shape, axis) == 1 {
        filter_rows(
            extreme, mode, data, shape, axis, left, right, &mut line, out,
        );
        return;
    }
    filter_columns(
        extreme, mode, data, shape, axis, left, right, &mut line, out,
    );
}
