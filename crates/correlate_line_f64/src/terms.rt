// The terms of four neighbouring weights of a float sum, each operation rounded, in the order that the definition has.
ghost use Rattle.std.specs.Prelude.{◌≡◌, ◌+◌, ◌≤◌, length, get_or};
ghost use Rattle.direction.specs.Direction.{directed};
ghost use Rattle.correlate_spec.specs.Weighed.{float_ops};
ghost use Rattle.correlate_line_f64.specs.Four.{four_more};

use direction::weight_at_f64;

// Four neighbouring weights.
#[derive(Clone, Copy)]
pub struct Four {
    pub w0: f64,
    pub w1: f64,
    pub w2: f64,
    pub w3: f64,
}

// Weights j to j + 3, as they are applied.
fn four_toward(weights: &[f64], backward: bool, j: usize) -> Four
    requires { j + 4 ≤ length weights.now }
    ensures { (result.w0 ≡ get_or (directed backward weights.now) j float_ops.past)
        × (result.w1 ≡ get_or (directed backward weights.now) (j + 1) float_ops.past)
        × (result.w2 ≡ get_or (directed backward weights.now) (j + 2) float_ops.past)
        × (result.w3 ≡ get_or (directed backward weights.now) (j + 3) float_ops.past) }
{
    Four {
        w0: weight_at_f64(weights, backward, j),
        w1: weight_at_f64(weights, backward, j + 1),
        w2: weight_at_f64(weights, backward, j + 2),
        w3: weight_at_f64(weights, backward, j + 3),
    }
}

// As four_toward, the direction asked once for the four. Where it is asked for each, the compiler chooses an address
// for every weight of every pass, which short lanes pay for.
pub(crate) fn four_weights(weights: &[f64], backward: bool, j: usize) -> Four
    requires { j + 4 ≤ length weights.now }
    ensures { (result.w0 ≡ get_or (directed backward weights.now) j float_ops.past)
        × (result.w1 ≡ get_or (directed backward weights.now) (j + 1) float_ops.past)
        × (result.w2 ≡ get_or (directed backward weights.now) (j + 2) float_ops.past)
        × (result.w3 ≡ get_or (directed backward weights.now) (j + 3) float_ops.past) }
{
    if backward {
        return four_toward(weights, true, j);
    }
    four_toward(weights, false, j)
}

// A sum, and the terms of the cells at four neighbouring places, added one after the other.
pub(crate) fn four_more(sum: f64, line: &[f64], at: usize, four: Four) -> f64
    requires { at + 4 ≤ length line.now }
    ensures { result ≡ four_more sum line.now at four.w0 four.w1 four.w2 four.w3 }
{
    let two = sum + line[at] * four.w0 + line[at + 1] * four.w1;
    two + line[at + 2] * four.w2 + line[at + 3] * four.w3
}
