// The means on every lane of an axis: each lane is padded into a line, and its means are written straight to its cells
// of out, however far apart they stand.
ghost use Rattle.std.specs.Prelude.{◌≡◌, ◌+◌, ◌*◌, ◌<◌, pos, length};
ghost use Rattle.numbers.specs.Limits.{longest_line};
ghost use Rattle.lanes.specs.Lanes.{lane_base, lane_at, with_lane, along_axis};
ghost use Rattle.border.specs.Modes.{border_of};
ghost use Rattle.pad_line.specs.Lane.{filtered_lane, LineNeeds, AxisNeeds};
ghost use Rattle.uniform_axis.specs.MeanAxisNeeds.{means_by, MeanAxisNeeds};

use border::BorderMode;

// Sets a lane of out, the one that starts at place base, to the means of the same lane of data. The line has room for
// the padded lane.
fn average_lane(
    mode: BorderMode,
    data: &[i64],
    base: usize,
    stride: usize,
    n: usize,
    lane: usize,
    left: usize,
    right: usize,
    line: &mut [i64],
    out: &mut [i64],
)
    requires { LineNeeds (border_of mode) n stride base left right «data».now line.old
        × MeanAxisNeeds (left + right + 1) (border_of mode) «data».now × (0 < stride) × (base ≡ lane_base n stride lane)
        × (base + n * stride < length out.old + stride) }
    ensures { out.new ≡ with_lane (pos 0) n stride lane
        (filtered_lane (pos 0) (means_by (left + right + 1)) (border_of mode) left right
        (lane_at (pos 0) «data».now base stride n)) out.old }
{
    pad_line::pad_from(data, base, stride, n, mode, left, right, line);
    let total = left + n + right;
    uniform_line::uniform_lane(&line[..total], left + right + 1, n, stride, lane, base, out);
}

// The means on every lane of any axis. The line is a buffer of 1,088 cells.
fn average_lanes(
    mode: BorderMode,
    data: &[i64],
    shape: &[usize],
    axis: usize,
    left: usize,
    right: usize,
    line: &mut [i64],
    out: &mut [i64],
)
    requires { AxisNeeds (border_of mode) shape.now axis left right «data».now out.old
        × MeanAxisNeeds (left + right + 1) (border_of mode) «data».now × (length line.old ≡ longest_line) }
    ensures { out.new ≡ along_axis (pos 0)
        (filtered_lane (pos 0) (means_by (left + right + 1)) (border_of mode) left right) shape.now axis
        «data».now }
{
    let along = lanes::lanes_of(shape, axis);
    let n = along.len;
    let stride = along.stride;
    let count = along.count;
    let mut start = lanes::Start {
        place: 0,
        offset: 0,
    };
    for lane in 0..count {
        average_lane(
            mode,
            data,
            start.place,
            stride,
            n,
            lane,
            left,
            right,
            line,
            out,
        );
        start = lanes::next_start(n, stride, lane, start);
    }
}

// Fills out with the means of the lanes of the axis of data: left and right are the pads of a window of left + right +
// 1 cells.
pub fn uniform_axis(
    mode: BorderMode,
    data: &[i64],
    shape: &[usize],
    axis: usize,
    left: usize,
    right: usize,
    out: &mut [i64],
)
    requires { AxisNeeds (border_of mode) shape.now axis left right «data».now out.old
        × MeanAxisNeeds (left + right + 1) (border_of mode) «data».now }
    ensures { out.new ≡ along_axis (pos 0)
        (filtered_lane (pos 0) (means_by (left + right + 1)) (border_of mode) left right) shape.now axis
        «data».now }
{
    let mut line = [0; numbers::LONGEST_LINE];
    average_lanes(mode, data, shape, axis, left, right, &mut line, out);
}
