// The first pass along a row, which sets its cells: nothing is cleared before.
ghost use Rattle.std.specs.Prelude.{◌≡◌, ◌≤◌, length};
ghost use Rattle.numbers.specs.Lists.{tabulate};
ghost use Rattle.direction.specs.Direction.{directed};
ghost use Rattle.correlate_spec.specs.Weighed.{float_ops, plain_to};
ghost use Rattle.correlate_spec.specs.Lengths.{Windows};

use crate::terms::{four_more, four_weights};
use direction::weight_at_f64;

// Sets every cell to 0.0 and the term of the first cell of its window.
fn start_row(weights: &[f64], backward: bool, line: &[f64], out: &mut [f64])
    requires { Windows weights.now line.now (length out.old) }
    ensures { out.new ≡ tabulate (plain_to float_ops (directed backward weights.now)
        line.now 1) 0 (length out.old) }
{
    let weight = weight_at_f64(weights, backward, 0);
    let n = out.len();
    for i in 0..n {
        out[i] = 0.0 + line[i] * weight;
    }
}

// Sets every cell to 0.0 and the terms of the first three cells of its window.
fn start_three_rows(weights: &[f64], backward: bool, line: &[f64], out: &mut [f64])
    requires { Windows weights.now line.now (length out.old) × (3 ≤ length weights.now) }
    ensures { out.new ≡ tabulate (plain_to float_ops (directed backward weights.now)
        line.now 3) 0 (length out.old) }
{
    let w0 = weight_at_f64(weights, backward, 0);
    let w1 = weight_at_f64(weights, backward, 1);
    let w2 = weight_at_f64(weights, backward, 2);
    let n = out.len();
    for i in 0..n {
        out[i] = 0.0 + line[i] * w0 + line[i + 1] * w1 + line[i + 2] * w2;
    }
}

// Sets every cell to 0.0 and the terms of the first four cells of its window.
fn start_four_rows(weights: &[f64], backward: bool, line: &[f64], out: &mut [f64])
    requires { Windows weights.now line.now (length out.old) × (4 ≤ length weights.now) }
    ensures { out.new ≡ tabulate (plain_to float_ops (directed backward weights.now)
        line.now 4) 0 (length out.old) }
{
    let four = four_weights(weights, backward, 0);
    let n = out.len();
    for i in 0..n {
        out[i] = four_more(0.0, line, i, four);
    }
}

// Sets every cell to 0.0 and the terms of the first five cells of its window.
fn start_five_rows(weights: &[f64], backward: bool, line: &[f64], out: &mut [f64])
    requires { Windows weights.now line.now (length out.old) × (5 ≤ length weights.now) }
    ensures { out.new ≡ tabulate (plain_to float_ops (directed backward weights.now)
        line.now 5) 0 (length out.old) }
{
    let four = four_weights(weights, backward, 0);
    let fifth = weight_at_f64(weights, backward, 4);
    let n = out.len();
    for i in 0..n {
        out[i] = four_more(0.0, line, i, four) + line[i + 4] * fifth;
    }
}

// Starts every cell with so many weights that the rest of an odd count goes by fours: three, or five, or the only one.
// An even count starts with four, or with one of two. Says how many were taken.
pub(crate) fn start_rows(weights: &[f64], backward: bool, line: &[f64], out: &mut [f64]) -> usize
    requires { Windows weights.now line.now (length out.old) }
    ensures { (result ≤ length weights.now)
        × (out.new ≡ tabulate (plain_to float_ops (directed backward weights.now)
        line.now result) 0 (length out.old)) }
{
    let count = weights.len();
    if count < 3 {
        start_row(weights, backward, line, out);
        return 1;
    }
    if count % 4 == 3 {
        start_three_rows(weights, backward, line, out);
        return 3;
    }
    if count % 4 == 1 {
        start_five_rows(weights, backward, line, out);
        return 5;
    }
    start_four_rows(weights, backward, line, out);
    4
}
