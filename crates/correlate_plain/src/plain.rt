// Adds the weighted sums of a whole line to what a row holds: four neighbouring weights a pass along the row while
// four are left, then three or one. A weight is read once a pass, in the direction that is asked for.
ghost use Rattle.std.specs.Prelude.{◌≡◌, ◌+◌, ◌≤◌, ◌<◌, length};
ghost use Rattle.numbers.specs.Lists.{tabulate};
ghost use Rattle.direction.specs.Direction.{directed};
ghost use Rattle.correlate_spec.specs.Weighed.{whole_ops, cell_term};
ghost use Rattle.correlate_plain.specs.Added.{plus, three_terms, four_terms, added_to, Passed, AddNeeds};

// Adds to every cell the term of cell j of its window.
pub(crate) fn add_row(weights: &[i64], backward: bool, line: &[i64], j: usize, out: &mut [i64])
    requires { Passed weights.now line.now out.old × (j < length weights.now) }
    ensures { out.new ≡ tabulate (plus out.old
        (λ i. cell_term whole_ops (directed backward weights.now) line.now i j)) 0
        (length out.old) }
{
    let weight = direction::weight_at(weights, backward, j);
    let n = out.len();
    for i in 0..n {
        out[i] = out[i] + line[i + j] * weight;
    }
}

// Adds to every cell the terms of cells j to j + 2 of its window. Two of them are kept from cell to cell: so the
// compiler makes one machine multiply of a product, where it makes several vector instructions of one whose cell is
// read anew.
fn add_three_rows(weights: &[i64], backward: bool, line: &[i64], j: usize, out: &mut [i64])
    requires { Passed weights.now line.now out.old × (j + 3 ≤ length weights.now) }
    ensures { out.new ≡ tabulate (plus out.old
        (λ i. three_terms (directed backward weights.now) line.now i j)) 0
        (length out.old) }
{
    let w0 = direction::weight_at(weights, backward, j);
    let w1 = direction::weight_at(weights, backward, j + 1);
    let w2 = direction::weight_at(weights, backward, j + 2);
    let n = out.len();
    let mut x0 = line[j];
    let mut x1 = line[j + 1];
    for i in 0..n {
        let x2 = line[i + j + 2];
        out[i] = out[i] + (x0 * w0 + x1 * w1 + x2 * w2);
        x0 = x1;
        x1 = x2;
    }
}

// Adds to every cell the terms of cells j to j + 3 of its window, as add_three_rows does.
fn add_four_rows(weights: &[i64], backward: bool, line: &[i64], j: usize, out: &mut [i64])
    requires { Passed weights.now line.now out.old × (j + 4 ≤ length weights.now) }
    ensures { out.new ≡ tabulate (plus out.old
        (λ i. four_terms (directed backward weights.now) line.now i j)) 0
        (length out.old) }
{
    let w0 = direction::weight_at(weights, backward, j);
    let w1 = direction::weight_at(weights, backward, j + 1);
    let w2 = direction::weight_at(weights, backward, j + 2);
    let w3 = direction::weight_at(weights, backward, j + 3);
    let n = out.len();
    let mut x0 = line[j];
    let mut x1 = line[j + 1];
    let mut x2 = line[j + 2];
    for i in 0..n {
        let x3 = line[i + j + 3];
        out[i] = out[i] + (x0 * w0 + x1 * w1 + x2 * w2 + x3 * w3);
        x0 = x1;
        x1 = x2;
        x2 = x3;
    }
}

// Adds the terms of four weights at a time while four are left, and says how many were taken.
fn add_fours(weights: &[i64], backward: bool, line: &[i64], out: &mut [i64]) -> usize
    requires { AddNeeds weights.now line.now out.old }
    ensures { (result ≤ length weights.now)
        × (out.new ≡ tabulate (added_to out.old (directed backward weights.now)
        line.now result) 0 (length out.old)) }
{
    let count = weights.len();
    let mut k = 0;
    // A `while`: where the fours end is the answer, which a `for` in steps of 4 does not keep.
    while count - k >= 4 {
        add_four_rows(weights, backward, line, k, out);
        k += 4;
    }
    k
}

// Adds to each cell of out the weighted sum of its window of the padded line.
pub fn add_line(weights: &[i64], backward: bool, line: &[i64], out: &mut [i64])
    requires { AddNeeds weights.now line.now out.old }
    ensures { out.new ≡ tabulate (added_to out.old (directed backward weights.now)
        line.now (length weights.now)) 0 (length out.old) }
{
    let count = weights.len();
    let taken = add_fours(weights, backward, line, out);
    if count - taken == 3 {
        add_three_rows(weights, backward, line, taken, out);
        return;
    }
    for k in taken..count {
        add_row(weights, backward, line, k, out);
    }
}
