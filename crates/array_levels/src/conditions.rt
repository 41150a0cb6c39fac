// Condition 3 of a refusal, of one level and of a grid, for every argument there is.
ghost use Rattle.std.specs.Prelude.{◌≡◌};
ghost use Rattle.numbers.specs.Lists.{any_of};
ghost use Rattle.array_spec.specs.Conditions.{bad_level, bad_float};

// Condition 3 of one whole level: outside -(2^31 - 1)..2^31 - 1. -2147483648 is outside.
#[tactic(auto, unfolding(array_spec::specs::Conditions::bad_level))]
pub fn bad_level(z: i64) -> bool
    ensures { result ≡ bad_level z }
{
    !(numbers::LEAST_LEVEL..=numbers::LARGEST_LEVEL).contains(&z)
}

// Condition 3 of a grid of whole levels: some level is outside.
#[tactic(auto, unfolding(array_spec::specs::Conditions::bad_level))]
pub fn bad_levels(data: &[i64]) -> bool
    ensures { result ≡ any_of bad_level «data».now }
{
    crate::level_range::any_outside(data)
}

// Condition 3 of one float level: not finite. -0.0 and subnormal numbers are finite.
#[tactic(auto, using(crate::proofs::Finite::finite_is))]
pub fn bad_level_f64(x: f64) -> bool
    ensures { result ≡ bad_float x }
{
    // A finite number less itself is 0; an infinity less itself is a NaN, and so is a NaN.
    x - x != 0.0
}

// Condition 3 of a grid of float levels: some level is not finite.
pub fn bad_levels_f64(data: &[f64]) -> bool
    ensures { result ≡ any_of bad_float «data».now }
{
    // No early return, so that the loop is compiled to vector code.
    let mut bad: usize = 0;
    for &x in data {
        if bad_level_f64(x) {
            bad += 1;
        }
    }
    0 < bad
}
