// The weights of a kernel in the caller's order, or from the last to the first, as a convolution applies them. Nothing
// is copied: a weight is read at its place, counted from the front or from the end.
#![tactic(auto)]

ghost use Rattle.std.specs.Prelude.{◌≡◌, ◌<◌, pos, length, get_or};
ghost use Rattle.std.specs.Float.{nan};
ghost use Rattle.direction.specs.Direction.{directed};
ghost use Rattle.direction.specs.Rows.{DirectionRows};

// Weight j in the direction, of j below the count of weights. Of 7 8 9 weight 0 is 7, and 9 where `backward` is true.
pub fn weight_at(weights: &[i64], backward: bool, j: usize) -> i64
    requires { j < length weights.now }
    ensures { result ≡ get_or (directed backward weights.now) j (pos 0) }
{
    if backward {
        return weights[weights.len() - 1 - j];
    }
    weights[j]
}

// As `weight_at`, of floats.
pub fn weight_at_f64(weights: &[f64], backward: bool, j: usize) -> f64
    requires { j < length weights.now }
    ensures { result ≡ get_or (directed backward weights.now) j nan }
{
    if backward {
        let last = weights.len() - 1;
        return weights[last - j];
    }
    weights[j]
}

// Worked rows of this crate's definitions.
pub fn rows()
    ensures { DirectionRows }
{}
