// The digits that a number is written with.
ghost use Rattle.std.specs.Prelude.{◌≡◌, ◌++◌, ◌≤◌, ◌<◌, nat_abs, length, drop};
ghost use Rattle.text_spec.specs.Writing.{glyph_of, digits_of, places_of, decimal_text, signed_text, written_in, written_count};

// How many bytes of room every written number asks for.
const ROOM: usize = 20;

// The byte of a digit.
fn glyph(d: u64) -> u8
    requires { d < 16 }
    ensures { result ≡ glyph_of d }
{
    if d < 10 {
        b'0' + d as u8
    } else {
        b'a' + (d - 10) as u8
    }
}

// The last k digits of n in a base from 2 to 16, at the front of out; the rest of out stays.
// Example: 2 digits of 1234 in base 10 are 34.
pub fn spell(n: u64, base: u64, k: usize, out: &mut [u8])
    requires lt_base { 1 < base }
    requires base_bound { base ≤ 16 }
    requires k_in_bounds { k ≤ length out.old }
    ensures { out.new ≡ digits_of base k n ++ drop k out.old }
{
    let mut rest = n;
    for i in (0..k).rev() {
        out[i] = glyph(rest % base);
        rest /= base;
    }
}

// The last k decimal digits of n at the front of out, two a turn, since a division takes longer than all else; the rest
// of out stays.
fn spell_decimal(n: u64, k: usize, out: &mut [u8])
    requires { k ≤ length out.old }
    ensures { out.new ≡ digits_of 10 k n ++ drop k out.old }
{
    let mut i = k;
    let mut rest = n;
    // A `while`, since a turn takes two places and one may be left.
    while i > 1 {
        let pair = rest % 100;
        out[i - 1] = glyph(pair % 10);
        out[i - 2] = glyph(pair / 10);
        rest /= 100;
        i -= 2;
    }
    if i == 1 {
        out[0] = glyph(rest % 10);
    }
}

// How many decimal digits n has, at most 19.
fn places(n: u64) -> usize
    ensures { result ≡ places_of 18 n }
{
    let mut power = 10;
    for k in 0..18 {
        if n < power {
            return k + 1;
        }
        power *= 10;
    }
    19
}

// The decimal digits of n at the front of out, and how many they are.
fn write_size(n: u64, out: &mut [u8]) -> usize
    requires { 19 ≤ length out.old }
    ensures value { result ≡ places_of 18 n }
    ensures out_after { out.new ≡ decimal_text n ++ drop (places_of 18 n) out.old }
{
    let k = places(n);
    spell_decimal(n, k, out);
    k
}

// Writes a signed number at the front of out, a minus and its decimal digits, and answers how many bytes it took.
//
// * `z` - the number.
// * `out` - at least 20 bytes; in a shorter one nothing is written, and the answer is 0.
//
// -7 writes - and 7, and answers 2.
pub fn write_signed(z: i64, out: &mut [u8]) -> usize
    ensures value { result ≡ written_count (signed_text z) out.old }
    ensures out_after { out.new ≡ written_in (signed_text z) out.old }
{
    if out.len() < ROOM {
        return 0;
    }
    if z < 0 {
        out[0] = b'-';
        return write_size(z.unsigned_abs(), &mut out[1..]) + 1;
    }
    write_size(z.unsigned_abs(), out)
}
