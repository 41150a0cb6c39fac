// The number that a token is: digit by digit in any base, and with a sign.
ghost use Rattle.std.specs.Prelude.{◌≡◌, ◌≤◌, ◌<◌};
ghost use Rattle.text_spec.specs.Reading.{digit_of, numeral_of, unsigned_of, positive_of, negative_of, signed_of};

// The size of i64::MIN, which is no i64.
const HALF: u64 = 9223372036854775808;

// The digit that a byte is, `0` to `9` and `a` to `f`, or 16 where it is none. 55 is 7, 97 is 10.
pub fn digit(byte: u8) -> u64
    ensures { result ≡ digit_of byte }
{
    match byte {
        b'0'..=b'9' => u64::from(byte - b'0'),
        b'a'..=b'f' => u64::from(byte - b'a') + 10,
        _ => 16,
    }
}

// The number that a token is in a base from 2 to 16: digits only, at least one, leading zeros allowed.
// Example: ff in base 16 is 255.
pub fn numeral(base: u64, token: &[u8]) -> Option<u64>
    requires lt_base { 1 < base }
    requires base_bound { base ≤ 16 }
    ensures { result ≡ numeral_of base token.now }
{
    if token.is_empty() {
        return None;
    }
    let mut n: u64 = 0;
    for &byte in token {
        let d = digit(byte);
        if d >= base {
            return None;
        }
        n = n.checked_mul(base)?.checked_add(d)?;
    }
    Some(n)
}

// The unsigned number that a token is: decimal digits only.
//
// * `token` - the bytes, whatever they are.
//
// Any other token and a number beyond 2^64 - 1 are None. 0042 is 42, and +1 is None.
pub fn read_unsigned(token: &[u8]) -> Option<u64>
    ensures { result ≡ unsigned_of token.now }
{
    numeral(10, token)
}

// A size as a number at or above 0.
fn positive(size: Option<u64>) -> Option<i64>
    ensures { result ≡ positive_of size }
{
    i64::try_from(size?).ok()
}

// A size as a number at or below 0.
fn negative(size: Option<u64>) -> Option<i64>
    ensures { result ≡ negative_of size }
{
    let n = size?;
    if n == HALF {
        return Some(i64::MIN);
    }
    let z = i64::try_from(n).ok()?;
    Some(-z)
}

// The signed number that a token is: decimal digits, a minus before them or not.
//
// * `token` - the bytes, whatever they are.
//
// Any other token and a number outside -2^63 to 2^63 - 1 are None. -07 is -7, and - is None.
pub fn read_signed(token: &[u8]) -> Option<i64>
    ensures { result ≡ signed_of token.now }
{
    match token {
        [b'-', size @ ..] => negative(read_unsigned(size)),
        _ => positive(read_unsigned(token)),
    }
}
