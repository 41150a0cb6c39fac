// As `correlate_line`, of floats: bit for bit the sums in the order of roundings that the class of the weights has.
// Weight j is the j-th one as the weights are applied: counted from the end where `backward` is true.
#![tactic(auto)]

ghost use Rattle.std.specs.Prelude.{◌≡◌, length};
ghost use Rattle.direction.specs.Direction.{directed};
ghost use Rattle.symmetry_spec.specs.declared.SymmetryState.TheVariants.{NonSymmetric};
ghost use Rattle.correlate_spec.specs.Weighed.{float_ops, weighed_line};
ghost use Rattle.correlate_spec.specs.Lengths.{Windows};
ghost use Rattle.correlate_line_f64.specs.Rows.{CorrelateLineF64Rows};

use add::{add_fours, add_row};
use correlate_pairs_f64::pair_line_f64;
use start::start_rows;
use symmetry_spec::SymmetryState;

mod add;
mod start;
mod terms;

// Every cell of the window times its own weight.
fn plain_line(weights: &[f64], backward: bool, line: &[f64], out: &mut [f64])
    requires { Windows weights.now line.now (length out.old) }
    ensures { out.new ≡ weighed_line float_ops NonSymmetric (directed backward weights.now)
        line.now (length out.old) }
{
    let count = weights.len();
    let started = start_rows(weights, backward, line, out);
    let taken = add_fours(weights, backward, line, started, out);
    for k in taken..count {
        add_row(weights, backward, line, k, out);
    }
}

// Sets each cell of out to the weighted sum of its window of the padded line, summed as the class says: each operation
// rounded, in that order. The weights are applied as they stand, or from the last to the first where backward is true.
pub fn correlate_line_f64(
    weights: &[f64],
    backward: bool,
    class: SymmetryState,
    line: &[f64],
    out: &mut [f64],
)
    requires { Windows weights.now line.now (length out.old) }
    ensures { out.new ≡ weighed_line float_ops class (directed backward weights.now)
        line.now (length out.old) }
{
    match class {
        SymmetryState::NonSymmetric => plain_line(weights, backward, line, out),
        SymmetryState::Symmetric => pair_line_f64(weights, backward, false, line, out),
        SymmetryState::AntiSymmetric => pair_line_f64(weights, backward, true, line, out),
    }
}

// Worked rows of this crate's definitions.
pub fn rows()
    ensures { CorrelateLineF64Rows }
{}
