// A word of the text, byte by byte: a minus or none, then digits.
ghost use Rattle.std.specs.Prelude.{◌≡◌, ◌+◌, min};
ghost use Rattle.grid_text_spec.specs.Words.{gap_byte};
ghost use Rattle.grid_text_spec.specs.Machine.{digit_cap, capped, empty_word, is_empty, starts_minus, next_byte};
ghost use Rattle.grid_text_spec.specs.Machine.{broken_word, wrong_word, out_word};

use grid_text_spec::TextWord;

// 10^18: a number of up to 18 digits is below it.
const SIZE_CAP: u64 = 1000000000000000000;

// The digits that a number may have.
const MOST_DIGITS: u8 = 18;

// One over that: no longer number need be told apart.
const DIGIT_CAP: u8 = MOST_DIGITS + 1;

// A size, at most 10^18.
pub fn capped_size(size: u64) -> u64
    ensures { result ≡ capped size }
{
    size.min(SIZE_CAP)
}

// Whether a byte stands between words: a space or a line feed.
pub fn is_gap(byte: u8) -> bool
    ensures { result ≡ gap_byte byte }
{
    byte == b' ' || byte == b'\n'
}

// The word of which no byte was read.
pub fn no_word() -> TextWord
    ensures { result ≡ empty_word }
{
    TextWord {
        minus: false,
        odd: false,
        digits: 0,
        size: 0,
    }
}

// Whether no byte of a word was read.
pub fn is_empty(word: TextWord) -> bool
    ensures { result ≡ is_empty word }
{
    !word.minus && word.digits == 0
}

// Whether a byte is the minus before a word.
fn starts_minus(word: TextWord, byte: u8) -> bool
    ensures { result ≡ starts_minus word byte }
{
    byte == b'-' && is_empty(word)
}

// One digit more, at most 19.
fn more_digits(digits: u8) -> u8
    ensures { result ≡ min (digits + 1) digit_cap }
{
    digits.saturating_add(1).min(DIGIT_CAP)
}

// The word after one byte more.
#[tactic(auto, unfolding(grid_text_spec::specs::Machine::next_byte))]
pub fn next_byte(word: TextWord, byte: u8) -> TextWord
    ensures { result ≡ next_byte word byte }
{
    if starts_minus(word, byte) {
        return TextWord {
            minus: true,
            ..word
        };
    }
    let d = text::digit(byte);
    TextWord {
        minus: word.minus,
        odd: word.odd || 10 <= d,
        digits: more_digits(word.digits),
        size: capped_size(capped_size(word.size) * 10 + d),
    }
}

// Whether a word is no number.
#[tactic(auto, unfolding(grid_text_spec::specs::Machine::broken_word))]
pub fn is_broken(word: TextWord) -> bool
    ensures { result ≡ broken_word word }
{
    word.odd || word.digits == 0
}

// Whether a word is no number, or has over 18 digits.
#[tactic(auto, unfolding(grid_text_spec::specs::Machine::wrong_word))]
pub fn is_wrong(word: TextWord) -> bool
    ensures { result ≡ wrong_word word }
{
    is_broken(word) || MOST_DIGITS < word.digits
}

// Whether a word is a number outside `lo` to `hi`.
#[tactic(auto, unfolding(grid_text_spec::specs::Machine::out_word))]
pub fn is_out(lo: u64, hi: u64, word: TextWord) -> bool
    ensures { result ≡ out_word lo hi word }
{
    !is_broken(word) && (word.minus || !(lo..=hi).contains(&word.size))
}
