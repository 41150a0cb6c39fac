// The term of one pair of a float sum, each operation rounded, in the order that the definition has.
ghost use Rattle.std.specs.Prelude.{◌≡◌, ◌<◌, length, get_or};
ghost use Rattle.correlate_spec.specs.Weighed.{float_ops};
ghost use Rattle.correlate_spec.specs.Joined.{joined_by};

// The cells at two places, joined by difference where minus is true, else by sum, times a weight. The compiler takes
// the test out of the loops that ask it.
pub(crate) fn pair_term(minus: bool, line: &[f64], left: usize, right: usize, weight: f64) -> f64
    requires { (left < length line.now) × (right < length line.now) }
    ensures { result ≡ float_ops.product (joined_by float_ops minus (get_or line.now left float_ops.past)
        (get_or line.now right float_ops.past)) weight }
{
    if minus {
        return (line[left] - line[right]) * weight;
    }
    (line[left] + line[right]) * weight
}
