// The means of the windows of a line, by a running sum: the cell that enters is added, the cell that leaves is taken
// away, so that a cell costs the same however long the window is. They are written straight to the cells of a lane.
#![tactic(auto)]

ghost use Rattle.std.specs.Prelude.{◌≡◌, false, ◌+◌, ◌*◌, ◌≤◌, ◌<◌, pos, neg_ℤ, length};
ghost use Rattle.numbers.specs.Ranges.{outside_z};
ghost use Rattle.lanes.specs.Lanes.{lane_base, with_lane};
ghost use Rattle.uniform_spec.specs.Mean.{cut, means, MeanLineNeeds};

use correlate_line::sum_of;
use window::window;

// The sum of a window over the number of its cells, cut toward zero.
fn cut_wide(total: i64, size: usize) -> i64
    requires { (0 < size) × (size ≤ 65) }
    ensures { result ≡ cut total size }
{
    total / (size as i64)
}

// The same of a sum that fits 32 bits.
fn cut_narrow(total: i64, size: usize) -> i64
    requires { (0 < size) × (size ≤ 65) × (outside_z (neg_ℤ (pos 2147483647)) (pos 2147483647) total ≡ false) }
    ensures { result ≡ cut total size }
{
    ((total as i32) / (size as i32)) as i64
}

// The same of any sum. A 64-bit division is compiled to a test whether both numbers are small and not below 0, which
// sums that change sign make hard to foresee; the tests here have one answer for most lines.
fn cut_mean(total: i64, size: usize) -> i64
    requires { (0 < size) × (size ≤ 65) }
    ensures { result ≡ cut total size }
{
    if total > 2147483647 || total < -2147483647 {
        return cut_wide(total, size);
    }
    cut_narrow(total, size)
}

// Sets the cells of a lane of out, the one that starts at place base, to the means of their windows of the padded line,
// cut toward zero.
pub fn uniform_lane(
    line: &[i64],
    size: usize,
    n: usize,
    stride: usize,
    lane: usize,
    base: usize,
    out: &mut [i64],
)
    requires { MeanLineNeeds line.now size n × (0 < n) × (0 < stride) × (base ≡ lane_base n stride lane)
        × (base + n * stride < length out.old + stride) }
    ensures { out.new ≡ with_lane (pos 0) n stride lane (means line.now size n)
        out.old }
{
    let before = size - 1;
    let mut sum = sum_of(window(line, 0, before));
    for i in 0..n {
        let total = sum + line[i + before];
        let mean = cut_mean(total, size);
        let at = base + i * stride;
        out[at] = mean;
        sum = total - line[i];
    }
}
