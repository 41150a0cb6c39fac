// Condition 9: the constant of a border.
ghost use Rattle.std.specs.Prelude.{◌≡◌};
ghost use Rattle.array_spec.specs.Conditions.{bad_level, bad_float};
ghost use Rattle.border.specs.Modes.{border_of, border_of_f64, bad_constant_by};

use crate::{BorderMode, BorderModeF64};

// Condition 9: whether mode carries a level that condition 3 would refuse. Constant(2147483648) gives true,
// Constant(-2147483647) and Wrap give false.
pub fn bad_constant(mode: BorderMode) -> bool
    ensures { result ≡ bad_constant_by bad_level (border_of mode) }
{
    match mode {
        BorderMode::Constant(t) => array::bad_level(t),
        BorderMode::Mirror => false,
        BorderMode::Nearest => false,
        BorderMode::Reflect => false,
        BorderMode::Wrap => false,
    }
}

// Condition 9 of a float border: whether mode carries a float that is not finite. Constant(1.0 / 0.0) gives true,
// Constant(-0.0) and Wrap give false.
pub fn bad_constant_f64(mode: BorderModeF64) -> bool
    ensures { result ≡ bad_constant_by bad_float (border_of_f64 mode) }
{
    match mode {
        BorderModeF64::Constant(t) => array::bad_level_f64(t),
        BorderModeF64::Mirror => false,
        BorderModeF64::Nearest => false,
        BorderModeF64::Reflect => false,
        BorderModeF64::Wrap => false,
    }
}
