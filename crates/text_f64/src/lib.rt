// Floats as text: the 16 hexadecimal digits of the bits, in lower case, and nan for every NaN.
#![tactic(auto)]

ghost use Rattle.std.specs.Prelude.{◌≡◌};
ghost use Rattle.std.specs.Float.{binary64};
ghost use Rattle.std.specs.Float.Ieee.{nan_bits};
ghost use Rattle.text_f64.specs.Bits.{is_nan_text, pattern_of, float_of, float_text};
ghost use Rattle.text_f64.specs.Rows.{TextF64Rows};
ghost use Rattle.text_f64.specs.Back.{ReadsBackF64};
ghost use Rattle.text_spec.specs.Writing.{written_in, written_count};

// How many bytes of room every written number asks for.
const ROOM: usize = 20;

// Whether a pattern is a NaN's: the 11 bits of the exponent are ones, and the 52 below are not all 0.
fn nan_bits(n: u64) -> bool
    ensures { result ≡ nan_bits binary64 n }
{
    n % 9223372036854775808 / 4503599627370496 == 2047 && n % 4503599627370496 != 0
}

// The float of a pattern.
fn pattern(bits: Option<u64>) -> Option<f64>
    ensures { result ≡ pattern_of bits }
{
    let n = bits?;
    if nan_bits(n) {
        return Some(f64::NAN);
    }
    Some(f64::from_bits(n))
}

// Whether a token is nan.
fn is_nan(token: &[u8]) -> bool
    ensures { result ≡ is_nan_text token.now }
{
    matches!(token, b"nan")
}

// The float that a token is.
//
// * `token` - the bytes, whatever they are.
//
// Any other token is None. The bits of a NaN are a NaN. 3ff0000000000000 is 1.0, and 3FF0000000000000 is None.
pub fn read_float(token: &[u8]) -> Option<f64>
    ensures { result ≡ float_of token.now }
{
    if is_nan(token) {
        return Some(f64::NAN);
    }
    if token.len() != 16 {
        return None;
    }
    pattern(text::numeral(16, token))
}

// Writes a float at the front of out, and answers how many bytes it took.
//
// * `x` - the float.
// * `out` - at least 20 bytes; in a shorter one nothing is written, and the answer is 0.
//
// -0.0 writes 8000000000000000 and answers 16, a NaN writes nan and answers 3.
pub fn write_float(x: f64, out: &mut [u8]) -> usize
    ensures value { result ≡ written_count (float_text x) out.old }
    ensures out_after { out.new ≡ written_in (float_text x) out.old }
{
    if out.len() < ROOM {
        return 0;
    }
    if x.is_nan() {
        out[..3].copy_from_slice(b"nan");
        return 3;
    }
    text::spell(f64::to_bits(x), 16, 16, out);
    16
}

// Reading what was written gives the float back; nothing runs.
pub fn reads_back_f64()
    ensures { ReadsBackF64 }
{}

// Worked rows about the definitions that the contracts cite; nothing runs.
pub fn rows()
    ensures { TextF64Rows }
{}
