// The steps of a list of numbers.
ghost use Rattle.std.specs.Prelude.{◌≡◌, ◌<◌, pos, get_or};
ghost use Rattle.recipe_fields.specs.Fields.{byte_of, signed8_of, signed16_of, step_from, steps_from};

use crate::ranges::{byte_of, signed8_of, signed16_of};
use recipe_spec::Step;

// The number at a place, 0 past the end.
pub(crate) fn number_at(fields: &[i64], at: usize) -> i64
    ensures { result ≡ get_or fields.now at (pos 0) }
{
    fields.get(at).copied().unwrap_or(0)
}

// The byte of the number at a place.
fn byte_at(fields: &[i64], at: usize) -> u8
    ensures { result ≡ byte_of (get_or fields.now at (pos 0)) }
{
    byte_of(number_at(fields, at))
}

// The 8 signed bits of the number at a place.
fn signed8_at(fields: &[i64], at: usize) -> i8
    ensures { result ≡ signed8_of (get_or fields.now at (pos 0)) }
{
    signed8_of(number_at(fields, at))
}

// The 16 signed bits of the number at a place.
fn signed16_at(fields: &[i64], at: usize) -> i16
    ensures { result ≡ signed16_of (get_or fields.now at (pos 0)) }
{
    signed16_of(number_at(fields, at))
}

// The step whose six numbers start at `at`.
fn step_from(fields: &[i64], at: usize) -> Step
    requires { at < 96 }
    ensures { result ≡ step_from fields.now at }
{
    Step {
        kind: byte_at(fields, at),
        axis: byte_at(fields, at + 1),
        length: byte_at(fields, at + 2),
        origin: signed8_at(fields, at + 3),
        border: byte_at(fields, at + 4),
        constant: signed16_at(fields, at + 5),
    }
}

// The 16 steps of a list of numbers.
pub(crate) fn steps_from(fields: &[i64]) -> [Step; 16]
    ensures { result ≡ steps_from fields.now }
{
    let mut steps = [step_from(fields, 0); 16];
    for k in 0..16 {
        steps[k] = step_from(fields, 6 * k);
    }
    steps
}
