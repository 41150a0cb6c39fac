// By how much weights are raised above zero, so that a product is one multiply of the machine. Which cells may be
// raised is a definition: specs/Narrow.antt.
ghost use Rattle.std.specs.Prelude.{◌≡◌, pos};
ghost use Rattle.std.specs.Int.Signed.{lt_z};
ghost use Rattle.numbers.specs.Lists.{any_of};
ghost use Rattle.correlate_raised_terms.specs.Narrow.{raise_of};

// Whether a weight is below 0.
fn any_below(weights: &[i64]) -> bool
    ensures { result ≡ any_of (λ z. lt_z z (pos 0)) weights.now }
{
    weights.iter().any(|w| *w < 0)
}

// By how much the weights are raised: not at all where none is below 0.
#[tactic(auto, unfolding(crate::specs::Narrow::raise_of))]
pub fn raise_of(weights: &[i64]) -> u32
    ensures { result ≡ raise_of weights.now }
{
    if any_below(weights) { 65535 } else { 0 }
}
