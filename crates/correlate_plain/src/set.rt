// Sets a row to the weighted sums of a whole line: three neighbouring weights in the first pass along the row, or one
// where there are fewer than three, and then one a pass. Nothing is cleared before.
ghost use Rattle.std.specs.Prelude.{◌≡◌, ◌≤◌, length};
ghost use Rattle.numbers.specs.Lists.{tabulate};
ghost use Rattle.symmetry_spec.specs.declared.SymmetryState.TheVariants.{NonSymmetric};
ghost use Rattle.direction.specs.Direction.{directed};
ghost use Rattle.correlate_spec.specs.Weighed.{whole_ops, plain_to, weighed_line};
ghost use Rattle.correlate_spec.specs.Sizes.{LineSumNeeds};

use crate::plain::add_row;
use direction::weight_at;

// Sets every cell to the term of the first cell of its window.
fn start_row(weights: &[i64], backward: bool, line: &[i64], out: &mut [i64])
    requires { LineSumNeeds weights.now line.now (length out.old) }
    ensures { out.new ≡ tabulate (plain_to whole_ops (directed backward weights.now)
        line.now 1) 0 (length out.old) }
{
    let weight = weight_at(weights, backward, 0);
    let n = out.len();
    for i in 0..n {
        out[i] = line[i] * weight;
    }
}

// Sets every cell to the terms of the first three cells of its window. Two of them are kept from cell to cell, as
// add_three_rows does.
fn start_three_rows(weights: &[i64], backward: bool, line: &[i64], out: &mut [i64])
    requires { LineSumNeeds weights.now line.now (length out.old) × (3 ≤ length weights.now) }
    ensures { out.new ≡ tabulate (plain_to whole_ops (directed backward weights.now)
        line.now 3) 0 (length out.old) }
{
    let w0 = weight_at(weights, backward, 0);
    let w1 = weight_at(weights, backward, 1);
    let w2 = weight_at(weights, backward, 2);
    let n = out.len();
    let mut x0 = line[0];
    let mut x1 = line[1];
    for i in 0..n {
        let x2 = line[i + 2];
        out[i] = x0 * w0 + x1 * w1 + x2 * w2;
        x0 = x1;
        x1 = x2;
    }
}

// Starts every cell with the first three weights, or with the first where there are fewer, and says how many were
// taken.
fn start_rows(weights: &[i64], backward: bool, line: &[i64], out: &mut [i64]) -> usize
    requires { LineSumNeeds weights.now line.now (length out.old) }
    ensures { (result ≤ length weights.now)
        × (out.new ≡ tabulate (plain_to whole_ops (directed backward weights.now)
        line.now result) 0 (length out.old)) }
{
    if weights.len() < 3 {
        start_row(weights, backward, line, out);
        return 1;
    }
    start_three_rows(weights, backward, line, out);
    3
}

// Sets each cell of out to the weighted sum of its window of the padded line.
pub fn set_line(weights: &[i64], backward: bool, line: &[i64], out: &mut [i64])
    requires { LineSumNeeds weights.now line.now (length out.old) }
    ensures { out.new ≡ weighed_line whole_ops NonSymmetric (directed backward weights.now)
        line.now (length out.old) }
{
    let count = weights.len();
    let taken = start_rows(weights, backward, line, out);
    for k in taken..count {
        add_row(weights, backward, line, k, out);
    }
}
