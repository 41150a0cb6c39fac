// Adds the terms of the next weights to the sums that a row holds: of one weight or four a pass along the row.
ghost use Rattle.std.specs.Prelude.{◌≡◌, ◌+◌, ◌≤◌, ◌<◌, length};
ghost use Rattle.numbers.specs.Lists.{tabulate};
ghost use Rattle.direction.specs.Direction.{directed};
ghost use Rattle.correlate_spec.specs.Weighed.{float_ops, plain_to};
ghost use Rattle.correlate_spec.specs.Lengths.{Windows};

use crate::terms::{four_more, four_weights};
use direction::weight_at_f64;

// Adds to every cell the term of cell j of its window.
pub(crate) fn add_row(weights: &[f64], backward: bool, line: &[f64], j: usize, out: &mut [f64])
    requires { Windows weights.now line.now (length out.old) × (j < length weights.now)
        × (out.old ≡ tabulate (plain_to float_ops (directed backward weights.now) line.now j) 0
        (length out.old)) }
    ensures { out.new ≡ tabulate (plain_to float_ops (directed backward weights.now)
        line.now (j + 1)) 0 (length out.old) }
{
    let weight = weight_at_f64(weights, backward, j);
    let n = out.len();
    for i in 0..n {
        out[i] = out[i] + line[i + j] * weight;
    }
}

// Adds to every cell the terms of cells j to j + 3 of its window, one after the other.
fn add_four_rows(weights: &[f64], backward: bool, line: &[f64], j: usize, out: &mut [f64])
    requires { Windows weights.now line.now (length out.old) × (j + 4 ≤ length weights.now)
        × (out.old ≡ tabulate (plain_to float_ops (directed backward weights.now) line.now j) 0
        (length out.old)) }
    ensures { out.new ≡ tabulate (plain_to float_ops (directed backward weights.now)
        line.now (j + 4)) 0 (length out.old) }
{
    let four = four_weights(weights, backward, j);
    let n = out.len();
    for i in 0..n {
        out[i] = four_more(out[i], line, i + j, four);
    }
}

// From weight `from` on, adds the terms of four weights at a time while four are left, and says how many were taken in
// all. The loop stands by itself: so LLVM (22) asks the direction before it and not in every pass.
pub(crate) fn add_fours(
    weights: &[f64],
    backward: bool,
    line: &[f64],
    from: usize,
    out: &mut [f64],
) -> usize
    requires { Windows weights.now line.now (length out.old) × (from ≤ length weights.now)
        × (out.old ≡ tabulate (plain_to float_ops (directed backward weights.now) line.now from) 0
        (length out.old)) }
    ensures { (result ≤ length weights.now)
        × (out.new ≡ tabulate (plain_to float_ops (directed backward weights.now)
        line.now result) 0 (length out.old)) }
{
    let count = weights.len();
    let mut k = from;
    // A `while`: where the fours end is the answer, which a `for` in steps of 4 does not keep.
    while count - k >= 4 {
        add_four_rows(weights, backward, line, k, out);
        k += 4;
    }
    k
}
