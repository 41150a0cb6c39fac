// Tables of words, and where a word stands in one. A table is bytes: a space behind each word; where its lines hold
// more than words, that stands behind the space, and a line feed ends it. So one function finds a word in any table,
// and its rule is proved once.
#![tactic(auto)]

ghost use Rattle.std.specs.Prelude.{◌≡◌, cond, not, ◌&&◌, ◌||◌, ◌+◌, ◌-◌, ◌≤◌, ◌<◌, [], eqb, length, get_or, take, drop};
ghost use Rattle.words.specs.Words.{column_from, words_of, rests_of, lines_of, place_in, same_bytes};
ghost use Rattle.words.specs.Rows.{WordsRows};

const SPACE: u8 = b' ';

const LINE_FEED: u8 = b'\n';

// Whether the bytes from start to i are the token, with a space behind them.
fn is_here(token: &[u8], table: &[u8], start: usize, i: usize) -> bool
    requires { (start ≤ i) × (i < length table.now) }
    ensures { result ≡ eqb (get_or table.now i 0) 32 && same_bytes
        (take (i - start) (drop start table.now)) token.now }
{
    table[i] == SPACE && &table[start..i] == token
}

// One more at a given byte.
fn count_at(byte: u8, end: u8, n: usize) -> usize
    requires { n < 18446744073709551615 }
    ensures { result ≡ cond (eqb byte end) (n + 1) n }
{
    if byte == end { n + 1 } else { n }
}

// One less at a given byte, and never below 0.
fn left_at(byte: u8, end: u8, n: usize) -> usize
    ensures { result ≡ cond (eqb byte end) (n - 1) n }
{
    if byte == end { n.saturating_sub(1) } else { n }
}

// Where the bytes start that go on behind place i: there, behind one of two given bytes.
fn start_behind(byte: u8, end: u8, other: u8, start: usize, i: usize) -> usize
    requires { i < 18446744073709551615 }
    ensures { result ≡ cond (eqb byte end || eqb byte other) (i + 1) start }
{
    if byte == end || byte == other {
        i + 1
    } else {
        start
    }
}

// Whether a byte is no space, and so ends no word.
fn no_space(byte: u8) -> bool
    ensures { result ≡ not (eqb byte 32) }
{
    byte != SPACE
}

// Where a token stands among the words of a table.
//
// * `token` - the bytes, whatever they are.
// * `table` - a space behind each word.
//
// wrap is Some(1) in `nearest wrap `, and wra is None.
pub fn find_word(token: &[u8], table: &[u8]) -> Option<usize>
    ensures { result ≡ place_in (words_of table.now) token.now }
{
    let mut place = 0;
    let mut start = 0;
    for (i, &byte) in table.iter().enumerate() {
        if no_space(byte) {
            start = start_behind(byte, SPACE, LINE_FEED, start, i);
            continue;
        }
        if is_here(token, table, start, i) {
            return Some(place);
        }
        place = count_at(byte, SPACE, place);
        start = i + 1;
    }
    None
}

// Whether the byte ends the last of those that are left.
fn is_last(byte: u8, end: u8, left: usize) -> bool
    ensures { result ≡ eqb byte end && eqb left 0 }
{
    byte == end && left == 0
}

// What stands before the given byte for the time that place says, counted from 0.
fn column_at(table: &[u8], end: u8, other: u8, place: usize) -> &[u8]
    ensures { result.now ≡ get_or (column_from end other [] table.now) place [] }
{
    let mut left = place;
    let mut start = 0;
    for (i, &byte) in table.iter().enumerate() {
        if is_last(byte, end, left) {
            return &table[start..i];
        }
        left = left_at(byte, end, left);
        start = start_behind(byte, end, other, start, i);
    }
    &[]
}

// The word at a place of a table, counted from 0; past the last word no bytes. At place 1 of `nearest wrap ` stands
// wrap.
pub fn word_at(table: &[u8], place: usize) -> &[u8]
    ensures { result.now ≡ get_or (words_of table.now) place [] }
{
    column_at(table, SPACE, LINE_FEED, place)
}

// What stands behind the word on a line of a table, the line counted from 0; past the last line no bytes.
pub fn rest_at(table: &[u8], place: usize) -> &[u8]
    ensures { result.now ≡ get_or (rests_of table.now) place [] }
{
    column_at(table, LINE_FEED, SPACE, place)
}

// The line of a text, counted from 0, without its line feed; past the last line feed no bytes.
pub fn line_at(table: &[u8], place: usize) -> &[u8]
    ensures { result.now ≡ get_or (lines_of table.now) place [] }
{
    column_at(table, LINE_FEED, LINE_FEED, place)
}

// Worked rows of words in tables.
pub fn rows()
    ensures { WordsRows }
{}
