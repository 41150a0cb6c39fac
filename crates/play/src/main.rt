// Plays the recipe file look.lks of the current folder over the grid whose text stands on standard input, and prints
// one level a line, or the refusal number alone.
//
// What a file and a text give is promised by `play_text`, and what a text is, fed part after part, by `grid_text`. The
// functions here promise nothing but that they are safe and end, and that what was read lies within what was lent: no
// contract can say what is read or written.
#![tactic(auto)]

ghost use Rattle.std.specs.Prelude.{◌≡◌, ◌<◌, ◌≤◌, length, take};

use grid_text_spec::TextState;
use std::fs::File;
use std::io::{Print, Read};
use std::rt::Files;

// A part of what is read at the front of what is lent, and how many bytes; none at its end or where it cannot be read.
fn bring(source: &mut impl Read, part: &mut [u8]) -> usize
    ensures bound { result ≤ length part.new }
    ensures prefix { result ≡ length (take result part.new) }
{
    match source.read(part) {
        Ok(n) => n,
        Err(_) => 0,
    }
}

// What is read until the bytes that are lent are full, and how many.
fn read_full(source: &mut impl Read, bytes: &mut [u8]) -> usize
    ensures bound { result ≤ length bytes.new }
    ensures prefix { result ≡ length (take result bytes.new) }
{
    let mut done = 0;
    // A `while`: a read moves on by as many bytes as it brings.
    while done < bytes.len() {
        let n = bring(source, &mut bytes[done..]);
        if n == 0 {
            break;
        }
        done += n;
    }
    done
}

// The first bytes of the file at the front of what is lent, and how many; none where it cannot be opened or read.
fn read_file<R: Files>(rt: &R, file: &mut [u8]) -> usize
    ensures bound { result ≤ length file.new }
    ensures prefix { result ≡ length (take result file.new) }
{
    match File::open(rt, "look.lks") {
        Ok(mut source) => read_full(&mut source, file),
        Err(_) => 0,
    }
}

// The state after standard input, part after part, and one line feed more.
fn read_text(
    input: &mut impl Read,
    part: &mut [u8],
    lengths: &mut [usize],
    levels: &mut [i64],
) -> TextState {
    let mut state = grid_text::start();
    for _ in 0..u64::MAX {
        let n = bring(input, part);
        if n == 0 {
            break;
        }
        state = grid_text::feed(state, &part[..n], lengths, levels);
    }
    grid_text::feed(state, b"\n", lengths, levels)
}

// Writes the first bytes of a text in one piece.
fn show(rt: &impl Print, text: &[u8], n: usize) {
    if n > text.len() {
        return;
    }
    let _ = rt.write_all(&text[..n]);
}

// 119 bytes of the file are enough, as `play_text::first_bytes` says. One buffer serves for the parts that are read and
// for what is printed, with 21 bytes for a line: each page more costs as much as some hundred levels.
fn main(rt: HostRuntime) {
    let mut file = [0u8; 119];
    let mut lengths = [0usize; 3];
    let mut levels = [0i64; 8192];
    let mut out = [0i64; 8192];
    let mut second = [0i64; 8192];
    let mut text = [0u8; 172032];
    let n = read_file(&rt, &mut file);
    let state = read_text(&mut rt.stdin(), &mut text, &mut lengths, &mut levels);
    let printed = play_text::respond(
        &file[..n],
        state,
        &lengths,
        &levels,
        &mut out,
        &mut second,
        &mut text,
    );
    show(&rt, &text, printed);
}
