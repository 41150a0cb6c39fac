// The row that the sums of raised terms start from: minus what raising the cells and the weights adds to each of them.
ghost use Rattle.std.specs.Prelude.{◌≡◌, length};
ghost use Rattle.numbers.specs.Lists.{tabulate};
ghost use Rattle.correlate_raised.specs.Raised.{raised_base, raised_start, LiftNeeds, RaiseNeeds};

use array::fill;
use correlate_plain::sum_of;
use window::window;

// What raising the cells adds to a sum, taken from 0.
fn base_of(weights: &[i64], by: u32) -> i64
    requires { LiftNeeds by weights.now }
    ensures { result ≡ raised_base by weights.now }
{
    let n = weights.len();
    let sum = sum_of(weights) + (n as i64) * (by as i64);
    0 - sum * 2147483648
}

// Sets every cell to base less what raising the weights adds to its sum: the sum of its window, by times.
fn lower_row(weights: &[i64], line: &[i64], by: u32, base: i64, out: &mut [i64])
    requires { RaiseNeeds by weights.now line.now (length out.old) × (base ≡ raised_base by weights.now) }
    ensures { out.new ≡ tabulate (raised_start by weights.now line.now) 0
        (length out.old) }
{
    let times = by as i64;
    let before = weights.len() - 1;
    let mut sum = sum_of(window(line, 0, before));
    let n = out.len();
    for i in 0..n {
        let total = sum + line[i + before];
        out[i] = base - total * times;
        sum = total - line[i];
    }
}

// Sets every cell to what its sum starts from: minus what raising adds to it.
pub(crate) fn start_row(weights: &[i64], line: &[i64], by: u32, out: &mut [i64])
    requires { RaiseNeeds by weights.now line.now (length out.old) }
    ensures { out.new ≡ tabulate (raised_start by weights.now line.now) 0
        (length out.old) }
{
    let base = base_of(weights, by);
    if by == 0 {
        fill(out, base);
        return;
    }
    lower_row(weights, line, by, base, out);
}
