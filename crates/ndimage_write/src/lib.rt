// What the program `ndimage` writes. Answers go through a buffer, which is written out when it is full and at the end
// of the line. No contract can say what is written, so these promise nothing but that they are safe and end: `flush`,
// `make_room`, `put_level`, `put_level_f64`, `put_byte`, `between`, `end`, `levels`, `levels_f64`, `bytes`, `say`,
// `refused`, `echo`, `error`, and `show_help` with what it calls.
#![tactic(auto)]

ghost use Rattle.std.specs.Prelude.{◌≡◌, cond, ◌+◌, ◌-◌, ltb, length, set};
ghost use Rattle.words.specs.Words.{lines_of};
ghost use Rattle.ndimage_spec.specs.Faults.{fault_texts, shows_token, visible_of};

use std::io::Print;

mod help;

pub use help::show_help;

// Writes out the first `at` bytes.
fn flush(rt: &impl Print, answer: &[u8], at: usize) {
    if at > answer.len() {
        return;
    }
    let _ = rt.write_all(&answer[0..at]);
}

// Where the next 32 bytes go.
fn make_room(rt: &impl Print, answer: &[u8], at: usize) -> usize {
    if answer.len() < 32 {
        return 0;
    }
    if at > answer.len() - 32 {
        flush(rt, answer, at);
        return 0;
    }
    at
}

// Stores a byte where there is room, and says where the next one goes.
fn put(answer: &mut [u8], at: usize, byte: u8) -> usize
    ensures { (result ≡ cond (ltb at (length answer.old)) (at + 1) at)
        × (answer.new ≡ set answer.old at byte) }
{
    if at >= answer.len() {
        return at;
    }
    answer[at] = byte;
    at + 1
}

// a + b, or a where that is beyond 64 bits.
fn sum(a: usize, b: usize) -> usize
    ensures { result ≡ cond (ltb (18446744073709551615 - b) a) a (a + b) }
{
    a.checked_add(b).unwrap_or(a)
}

fn put_level(rt: &impl Print, answer: &mut [u8], at: usize, z: i64) -> usize {
    let here = make_room(rt, answer, at);
    if here > answer.len() {
        return here;
    }
    let n = text::write_signed(z, &mut answer[here..]);
    sum(here, n)
}

fn put_level_f64(rt: &impl Print, answer: &mut [u8], at: usize, x: f64) -> usize {
    let here = make_room(rt, answer, at);
    if here > answer.len() {
        return here;
    }
    let n = text_f64::write_float(x, &mut answer[here..]);
    sum(here, n)
}

fn put_byte(rt: &impl Print, answer: &mut [u8], at: usize, byte: u8) -> usize {
    if answer.len() < 2 {
        return at;
    }
    let here = make_room(rt, answer, at);
    if here > answer.len() - 2 {
        return here;
    }
    text::spell(u64::from(byte), 16, 2, &mut answer[here..]);
    sum(here, 2)
}

// The byte between level i and the one before it.
fn between(rt: &impl Print, answer: &mut [u8], at: usize, i: usize) -> usize {
    if i == 0 {
        return at;
    }
    let here = make_room(rt, answer, at);
    put(answer, here, b' ')
}

// The end of the line.
fn end(rt: &impl Print, answer: &mut [u8], at: usize) {
    let here = make_room(rt, answer, at);
    let whole = put(answer, here, b'\n');
    flush(rt, answer, whole);
}

// Levels between single spaces.
pub fn levels(rt: &impl Print, cells: &[i64]) {
    let mut answer = [0u8; 4096];
    let mut at = 0;
    for (i, &z) in cells.iter().enumerate() {
        at = between(rt, &mut answer, at, i);
        at = put_level(rt, &mut answer, at, z);
    }
    end(rt, &mut answer, at);
}

pub fn levels_f64(rt: &impl Print, cells: &[f64]) {
    let mut answer = [0u8; 4096];
    let mut at = 0;
    for (i, &x) in cells.iter().enumerate() {
        at = between(rt, &mut answer, at, i);
        at = put_level_f64(rt, &mut answer, at, x);
    }
    end(rt, &mut answer, at);
}

// Bytes, two hexadecimal digits each.
pub fn bytes(rt: &impl Print, cells: &[u8]) {
    let mut answer = [0u8; 4096];
    let mut at = 0;
    for &byte in cells {
        at = put_byte(rt, &mut answer, at, byte);
    }
    end(rt, &mut answer, at);
}

// Words, straight to standard output.
pub fn say(rt: &impl Print, bytes: &[u8]) {
    let _ = rt.write_all(bytes);
}

pub fn refused(rt: &impl Print, number: u8) {
    say(rt, b"refused ");
    let _ = print!(rt; "{number}");
    say(rt, b"\n");
}

// A question mark for what is no visible character.
fn visible(byte: u8) -> u8
    ensures { result ≡ visible_of byte }
{
    if byte.is_ascii_graphic() { byte } else { b'?' }
}

// The token that is wrong, its first 40 bytes at most.
fn echo(rt: &impl Print, token: &[u8], len: usize) {
    let mut answer = [0u8; 64];
    let mut at = 0;
    for &byte in token.iter().take(len.min(40)) {
        at = put(&mut answer, at, visible(byte));
    }
    end(rt, &mut answer, at);
}

// The texts of the faults, a line each, from 0 on, which is no fault.
#[tactic(auto, unfolding(words::specs::Words::column_from))]
fn texts() -> [u8; 282]
    ensures { lines_of result ≡ fault_texts }
{
    *b"\
\n\
unknown request\n\
missing token\n\
extra token\n\
not a number: \n\
unknown mode: \n\
neither i nor f: \n\
unknown kernel: \n\
too many weights\n\
line too long\n\
a cell of a mask is neither 0 nor 1\n\
empty line\n\
not bytes in hexadecimal: \n\
too many bytes\n\
too many steps\n\
a number of a step is beyond its field\n"
}

// Whether the token that is wrong stands behind a text: behind one that ends in a space.
fn shows_token(text: &[u8]) -> bool
    ensures { result ≡ shows_token text.now }
{
    matches!(text, [.., b' '])
}

// What is wrong with a line, and the token where it is that.
pub fn error(rt: &impl Print, token: &[u8], len: usize, fault: usize) {
    let table = texts();
    let text = words::line_at(&table, fault);
    say(rt, b"error ");
    say(rt, text);
    if shows_token(text) {
        echo(rt, token, len);
        return;
    }
    say(rt, b"\n");
}
