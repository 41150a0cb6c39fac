// As `pair_line`, of floats: each operation is rounded, in the order that the definition has. The pair is rounded
// first, then the product, then the sum.
ghost use Rattle.std.specs.Prelude.{◌≡◌, ◌+◌, ◌-◌, ◌/◌, ◌≤◌, ◌<◌, length, get_or};
ghost use Rattle.numbers.specs.Lists.{tabulate};
ghost use Rattle.direction.specs.Direction.{directed};
ghost use Rattle.correlate_spec.specs.Weighed.{float_ops, cell_term, pairs_to, pairs_at};
ghost use Rattle.correlate_spec.specs.Lengths.{Windows};
ghost use Rattle.correlate_spec.specs.Joined.{joined_by};

use crate::terms::pair_term;
use direction::weight_at_f64;
use window::window_f64;

// Weight left as the weights are applied, where right mirrors left: the caller's right one from the end.
fn left_weight(weights: &[f64], backward: bool, left: usize, right: usize) -> f64
    requires { (left < length weights.now) × (right ≡ length weights.now - 1 - left) }
    ensures { result ≡ get_or (directed backward weights.now) left float_ops.past }
{
    if backward {
        return weights[right];
    }
    weights[left]
}

// Sets every cell to the first cell of its window times the first weight.
fn set_row(weights: &[f64], backward: bool, line: &[f64], out: &mut [f64])
    requires { Windows weights.now line.now (length out.old) }
    ensures { out.new ≡ tabulate (λ i. cell_term float_ops (directed backward weights.now)
        line.now i 0) 0 (length out.old) }
{
    let weight = weight_at_f64(weights, backward, 0);
    let n = out.len();
    let cells = window_f64(line, 0, n); // the first cell of every window, one after the other
    for i in 0..n {
        out[i] = cells[i] * weight;
    }
}

// Sets every cell to the middle cell of its window times the middle weight, and the term of the outermost pair.
fn start_pairs(weights: &[f64], backward: bool, minus: bool, line: &[f64], out: &mut [f64])
    requires { Windows weights.now line.now (length out.old) × (2 ≤ length weights.now) }
    ensures { out.new ≡ tabulate (pairs_to float_ops (joined_by float_ops minus)
        (directed backward weights.now) line.now 1) 0 (length out.old) }
{
    let half = weights.len() / 2;
    let right = weights.len() - 1;
    let middle = weight_at_f64(weights, backward, half);
    let outer = left_weight(weights, backward, 0, right);
    let n = out.len();
    for i in 0..n {
        out[i] = line[i + half] * middle + pair_term(minus, line, i, i + right, outer);
    }
}

// Adds to every cell the term of its window's cells left and right, which mirror each other.
fn add_pairs(
    weights: &[f64],
    backward: bool,
    minus: bool,
    line: &[f64],
    left: usize,
    right: usize,
    out: &mut [f64],
)
    requires { Windows weights.now line.now (length out.old) × (left < length weights.now / 2)
        × (right ≡ length weights.now - 1 - left)
        × (out.old ≡ tabulate (pairs_to float_ops (joined_by float_ops minus) (directed backward weights.now)
        line.now left) 0 (length out.old)) }
    ensures { out.new ≡ tabulate (pairs_to float_ops (joined_by float_ops minus)
        (directed backward weights.now) line.now (left + 1)) 0 (length out.old) }
{
    let shared = left_weight(weights, backward, left, right);
    let n = out.len();
    for i in 0..n {
        out[i] = out[i] + pair_term(minus, line, i + left, i + right, shared);
    }
}

// Adds to every cell the terms of three pairs, left and right and the two inside it, one after the other.
fn add_three_pairs(
    weights: &[f64],
    backward: bool,
    minus: bool,
    line: &[f64],
    left: usize,
    right: usize,
    out: &mut [f64],
)
    requires { Windows weights.now line.now (length out.old) × (left + 2 < length weights.now / 2)
        × (right ≡ length weights.now - 1 - left)
        × (out.old ≡ tabulate (pairs_to float_ops (joined_by float_ops minus) (directed backward weights.now)
        line.now left) 0 (length out.old)) }
    ensures { out.new ≡ tabulate (pairs_to float_ops (joined_by float_ops minus)
        (directed backward weights.now) line.now (left + 3)) 0 (length out.old) }
{
    let w0 = left_weight(weights, backward, left, right);
    let w1 = left_weight(weights, backward, left + 1, right - 1);
    let w2 = left_weight(weights, backward, left + 2, right - 2);
    let n = out.len();
    for i in 0..n {
        let t0 = pair_term(minus, line, i + left, i + right, w0);
        let t1 = pair_term(minus, line, i + left + 1, i + (right - 1), w1);
        let t2 = pair_term(minus, line, i + left + 2, i + (right - 2), w2);
        out[i] = out[i] + t0 + t1 + t2;
    }
}

// From the second pair on, adds the terms of three pairs at a time while three are left, and says how many pairs were
// taken in all. The loop stands by itself: so LLVM (22) asks minus before it and not in every pass.
// It ends by left and right: where it ends by left and a count, LLVM takes the test that line and out do not overlap
// out of the loop, can't make it for a place that goes down, and leaves the row's loop without vectors.
fn add_threes(weights: &[f64], backward: bool, minus: bool, line: &[f64], out: &mut [f64]) -> usize
    requires { Windows weights.now line.now (length out.old) × (2 ≤ length weights.now)
        × (out.old ≡ tabulate (pairs_to float_ops (joined_by float_ops minus) (directed backward weights.now)
        line.now 1) 0 (length out.old)) }
    ensures { (result ≤ length weights.now / 2)
        × (out.new ≡ tabulate (pairs_to float_ops (joined_by float_ops minus)
        (directed backward weights.now) line.now result) 0 (length out.old)) }
{
    let mut left = 1;
    let mut right = weights.len() - 2;
    while left + 4 < right {
        add_three_pairs(weights, backward, minus, line, left, right, out);
        left += 3;
        right -= 3;
    }
    left
}

// Sets each cell of out to the sum of its window by pairs: the middle cell and then the pairs from the outside in,
// joined by difference where minus is true, else by sum. The right half of the weights as applied is not read.
pub fn pair_line_f64(weights: &[f64], backward: bool, minus: bool, line: &[f64], out: &mut [f64])
    requires { Windows weights.now line.now (length out.old) }
    ensures { out.new ≡ tabulate (pairs_at float_ops (joined_by float_ops minus)
        (directed backward weights.now) line.now) 0 (length out.old) }
{
    let count = weights.len();
    if count < 2 {
        set_row(weights, backward, line, out);
        return;
    }
    start_pairs(weights, backward, minus, line, out);
    let mut left = add_threes(weights, backward, minus, line, out);
    let mut right = count - 1 - left;
    // A `while`: two counters, from both ends inward.
    while left < right {
        add_pairs(weights, backward, minus, line, left, right, out);
        left += 1;
        right -= 1;
    }
}
