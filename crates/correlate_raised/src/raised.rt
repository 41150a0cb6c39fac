// The weighted sums of a line whose cells fit 32 bits, four weights a pass: cells and weights are raised so that none
// is below 0, and a product is one multiply of the machine. What raising adds is taken away beforehand. The line is a
// buffer of the caller's, and its cells are raised in place.
ghost use Rattle.std.specs.Prelude.{◌≡◌, ◌+◌, ◌≤◌, ◌<◌, length};
ghost use Rattle.numbers.specs.Lists.{tabulate};
ghost use Rattle.symmetry_spec.specs.declared.SymmetryState.TheVariants.{NonSymmetric};
ghost use Rattle.direction.specs.Direction.{directed};
ghost use Rattle.correlate_spec.specs.Weighed.{whole_ops, weighed_line};
ghost use Rattle.correlate_spec.specs.Sizes.{LineSumNeeds};
ghost use Rattle.correlate_raised_terms.specs.Narrow.{Narrow};
ghost use Rattle.correlate_raised.specs.Raised.{raised_start, raised_to, RaiseNeeds};
ghost use Rattle.correlate_raised_terms.specs.Products.{lowered};

use crate::raised_start::start_row;
use correlate_raised_terms::{
    four_terms, raise_cells, raise_of, raised_four, raised_term, raised_weight,
};

// Adds to every cell the raised term of cell j of its window. The line holds raised cells.
fn add_raised_row(weights: &[i64], backward: bool, line: &[i64], by: u32, j: usize, out: &mut [i64])
    requires { RaiseNeeds by weights.now (lowered line.now) (length out.old) × (j < length weights.now)
        × (out.old ≡ tabulate (raised_to by (directed backward weights.now) (lowered line.now) j) 0
        (length out.old)) }
    ensures { out.new ≡ tabulate (raised_to by (directed backward weights.now)
        (lowered line.now) (j + 1)) 0 (length out.old) }
{
    let weight = raised_weight(weights, backward, by, j);
    let n = out.len();
    for i in 0..n {
        out[i] = out[i] + raised_term(line, i + j, weight) as i64;
    }
}

// Adds to every cell the raised terms of cells j to j + 3 of its window. The line holds raised cells.
fn add_four_raised_rows(
    weights: &[i64],
    backward: bool,
    line: &[i64],
    by: u32,
    j: usize,
    out: &mut [i64],
)
    requires { RaiseNeeds by weights.now (lowered line.now) (length out.old) × (j + 4 ≤ length weights.now)
        × (out.old ≡ tabulate (raised_to by (directed backward weights.now) (lowered line.now) j) 0
        (length out.old)) }
    ensures { out.new ≡ tabulate (raised_to by (directed backward weights.now)
        (lowered line.now) (j + 4)) 0 (length out.old) }
{
    let four = raised_four(weights, backward, by, j);
    let n = out.len();
    for i in 0..n {
        out[i] = out[i] + four_terms(line, i + j, four) as i64;
    }
}

// Adds to every cell the raised terms of all weights, four weights a pass while four are left. The line holds raised
// cells, and every cell what its sum starts from.
fn add_raised(weights: &[i64], backward: bool, line: &[i64], by: u32, out: &mut [i64])
    requires { RaiseNeeds by weights.now (lowered line.now) (length out.old)
        × (out.old ≡ tabulate (raised_start by (directed backward weights.now) (lowered line.now)) 0
        (length out.old)) }
    ensures { out.new ≡ weighed_line whole_ops NonSymmetric (directed backward weights.now)
        (lowered line.now) (length out.old) }
{
    let count = weights.len();
    let mut taken = 0;
    // A `while`: the loop after it begins where the fours end, which a `for` in steps of 4 does not keep.
    while count - taken >= 4 {
        add_four_raised_rows(weights, backward, line, by, taken, out);
        taken += 4;
    }
    for k in taken..count {
        add_raised_row(weights, backward, line, by, k, out);
    }
}

// Every cell of the window times its own weight, both raised. What the line then holds is of no use.
pub fn raised_line(weights: &[i64], backward: bool, line: &mut [i64], out: &mut [i64])
    requires { LineSumNeeds weights.now line.old (length out.old) × Narrow line.old }
    ensures { out.new ≡ weighed_line whole_ops NonSymmetric (directed backward weights.now)
        line.old (length out.old) }
{
    let by = raise_of(weights);
    start_row(weights, line, by, out);
    raise_cells(line);
    add_raised(weights, backward, line, by, out);
}
