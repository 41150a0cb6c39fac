// What a field of a step holds: the numbers that it cannot hold, and the value that it takes of any number.
ghost use Rattle.std.specs.Prelude.{◌≡◌};
ghost use Rattle.recipe_fields.specs.Fields.{bad_byte, bad_signed8, bad_signed16, byte_of, signed8_of, signed16_of};
ghost use Rattle.recipe_fields.specs.Fields.{bad_field};

// Whether no byte holds a number.
#[tactic(auto, unfolding(crate::specs::Fields::bad_byte))]
fn bad_byte(z: i64) -> bool
    ensures { result ≡ bad_byte z }
{
    !(0..=255).contains(&z)
}

// Whether no 8 signed bits hold a number.
#[tactic(auto, unfolding(crate::specs::Fields::bad_signed8))]
fn bad_signed8(z: i64) -> bool
    ensures { result ≡ bad_signed8 z }
{
    !(-128..=127).contains(&z)
}

// Whether no 16 signed bits hold a number.
#[tactic(auto, unfolding(crate::specs::Fields::bad_signed16))]
fn bad_signed16(z: i64) -> bool
    ensures { result ≡ bad_signed16 z }
{
    !(-32768..=32767).contains(&z)
}

// Whether field j of a step cannot hold a number: 3 is the origin, 5 the constant, each other a byte.
#[tactic(auto, unfolding(crate::specs::Fields::bad_field))]
pub(crate) fn bad_field(j: usize, z: i64) -> bool
    ensures { result ≡ bad_field j z }
{
    match j {
        3 => bad_signed8(z),
        5 => bad_signed16(z),
        _ => bad_byte(z),
    }
}

// The byte of a number, 0 where no byte holds it.
pub(crate) fn byte_of(z: i64) -> u8
    ensures { result ≡ byte_of z }
{
    u8::try_from(z).unwrap_or(0)
}

// The 8 signed bits of a number, 0 where they do not hold it.
pub(crate) fn signed8_of(z: i64) -> i8
    ensures { result ≡ signed8_of z }
{
    i8::try_from(z).unwrap_or(0)
}

// The 16 signed bits of a number, 0 where they do not hold it.
pub(crate) fn signed16_of(z: i64) -> i16
    ensures { result ≡ signed16_of z }
{
    i16::try_from(z).unwrap_or(0)
}
