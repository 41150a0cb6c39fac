// Condition 6 of whole weights. That of float weights is condition 3 of float levels: `array::bad_levels_f64`.
ghost use Rattle.std.specs.Prelude.{◌≡◌};
ghost use Rattle.numbers.specs.Lists.{any_of};
ghost use Rattle.correlate_judge_spec.specs.Judge.{bad_weight};

// Condition 6 of one whole weight: outside -65,535..65,535. bad_weight(65535) is false, bad_weight(-65536) is true.
#[tactic(auto, unfolding(correlate_judge_spec::specs::Judge::bad_weight))]
pub fn bad_weight(z: i64) -> bool
    ensures { result ≡ bad_weight z }
{
    !(numbers::LEAST_WEIGHT..=numbers::LARGEST_WEIGHT).contains(&z)
}

// Condition 6 of whole weights: some weight is outside. Of 1 65536 the answer is true.
pub fn bad_weights(weights: &[i64]) -> bool
    ensures { result ≡ any_of bad_weight weights.now }
{
    weights.iter().any(|z| bad_weight(*z))
}
