// Bytes out of a token in hexadecimal.
ghost use Rattle.std.specs.Prelude.{◌≡◌, ◌+◌, ◌*◌, ◌<◌, length};
ghost use Rattle.numbers.specs.Lists.{any_of};
ghost use Rattle.text_spec.specs.Reading.{no_digit};
ghost use Rattle.ndimage_spec.specs.Hexadecimal.{is_dash, bad_bytes, byte_count, byte_at, bytes_over};

// Whether a token is `-`.
fn is_dash(token: &[u8]) -> bool
    ensures { result ≡ is_dash token.now }
{
    matches!(token, b"-")
}

// Whether a byte of a token is no hexadecimal digit.
fn bad_digits(token: &[u8]) -> bool
    ensures { result ≡ any_of (no_digit 16) token.now }
{
    token.iter().any(|&byte| text::digit(byte) >= 16)
}

// Whether a token stands for no bytes.
pub(crate) fn bad_bytes(token: &[u8]) -> bool
    ensures { result ≡ bad_bytes token.now }
{
    !is_dash(token) && (token.len() % 2 != 0 || bad_digits(token))
}

// How many bytes a token stands for.
pub(crate) fn byte_count(token: &[u8]) -> usize
    ensures { result ≡ byte_count token.now }
{
    token.len() / 2
}

// Byte k of a token.
fn byte_at(token: &[u8], k: usize) -> u8
    requires { 2 * k + 1 < length token.now }
    ensures { result ≡ byte_at token.now k }
{
    let high = text::digit(token[2 * k]);
    let low = text::digit(token[2 * k + 1]);
    ((16 * high + low) % 256) as u8
}

// Stores the bytes of a token from the front, as many as there is room for.
pub(crate) fn fill_bytes(token: &[u8], out: &mut [u8])
    ensures { out.new ≡ bytes_over token.now out.old }
{
    let n = byte_count(token).min(out.len());
    for k in 0..n {
        out[k] = byte_at(token, k);
    }
}
