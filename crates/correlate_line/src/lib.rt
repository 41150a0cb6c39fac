// The weighted sums of a whole line: four weights a pass where they are five or more (correlate_raised), else without
// raising (correlate_plain).
#![tactic(auto)]

ghost use Rattle.std.specs.Prelude.{◌≡◌, ◌≤◌, length};
ghost use Rattle.symmetry_spec.specs.declared.SymmetryState.TheVariants.{NonSymmetric};
ghost use Rattle.direction.specs.Direction.{directed};
ghost use Rattle.correlate_spec.specs.Weighed.{whole_ops, weighed_line};
ghost use Rattle.correlate_spec.specs.Sizes.{LineSumNeeds};
ghost use Rattle.correlate_raised_terms.specs.Narrow.{Narrow};

use correlate_plain::set_line;
pub use correlate_plain::{add_line, sum_of};
use correlate_raised::raised_line;

// Sets each cell of out to the weighted sum of its window of the padded line. The weights are taken from the first to
// the last or, where `backward` is true, from the last to the first. From five weights on, raising them and the line
// pays; what the line then holds is of no use.
pub fn correlate_line(weights: &[i64], backward: bool, line: &mut [i64], out: &mut [i64])
    requires { LineSumNeeds weights.now line.old (length out.old)
        × (5 ≤ length weights.now → Narrow line.old) }
    ensures { out.new ≡ weighed_line whole_ops NonSymmetric (directed backward weights.now)
        line.old (length out.old) }
{
    if weights.len() >= 5 {
        raised_line(weights, backward, line, out);
        return;
    }
    set_line(weights, backward, line, out);
}
