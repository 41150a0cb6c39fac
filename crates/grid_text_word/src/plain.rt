// Digits that reach no cap. Nearly every byte of a text is one, and this is the shortest way for it.
ghost use Rattle.std.specs.Prelude.{◌≡◌, ◌&&◌, ◌≤◌, ◌<◌, leb, ltb};
ghost use Rattle.grid_text_spec.specs.Machine.{next_byte};

use grid_text_spec::TextWord;

// 10^16: a smaller size needs no cap with one digit more.
const SMALL_SIZE: u64 = 10000000000000000;

// So many digits need none with one more.
const FEW_DIGITS: u8 = 18;

// Whether a byte is a digit that lengthens a word without reaching a cap. No is never wrong: the longer way serves all.
pub fn is_plain(word: TextWord, byte: u8) -> bool
    ensures { result ≡ leb 48 byte && (ltb byte 58 && (ltb word.digits 18
        && ltb word.size 10000000000000000)) }
{
    (b'0'..=b'9').contains(&byte) && word.digits < FEW_DIGITS && word.size < SMALL_SIZE
}

// The word after such a digit.
pub fn plain_byte(word: TextWord, byte: u8) -> TextWord
    requires { (48 ≤ byte) × (byte < 58) × (word.digits < 18) × (word.size < 10000000000000000) }
    ensures { result ≡ next_byte word byte }
{
    TextWord {
        digits: word.digits + 1,
        size: word.size * 10 + u64::from(byte - b'0'),
        ..word
    }
}
