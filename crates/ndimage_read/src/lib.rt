// What the program `ndimage` reads: a request, token by token, part by part. After a fault nothing more is read.
//
// What parts a request has, and what is read for each, is promised (`ndimage_parts`), and so is what a token is. These
// promise nothing but that they are safe and end: `bring` and `fill`, which read; and what steps the state, the levels,
// the floats and the file that are lent: in cursor.rt `begin_line`, `faulty`, `lengthen`, `advance`, `keep`, `take`,
// `turn`, `run`, `next`, `expect_end`, `measure` and `finish`, in number.rt `keep` and what begins with `take_`, and
// here `clear`, `begin`, `open`, `take`, `read_token`, `read_part`, `read_parts` and `read`.
#![tactic(auto)]

use ndimage_parts::state::{Buffer, FAULT, FORM, File, Floats, LAST, LEN, Levels, REQUEST, State};
use ndimage_spec::{Fault, Kind, Part};
use std::io::Read;

pub mod cursor;
mod hexadecimal;
mod number;

// No part was read.
fn clear(state: &mut State) {
    state[FORM..].fill(0);
}

// The request that the line's first token names.
fn begin(buffer: &[u8], state: &mut State, table: &[u8]) {
    let len = state[LEN];
    clear(state);
    match words::find_word(number::shown(buffer, len), table) {
        Some(request) => state[REQUEST] = request,
        None if len == 0 => cursor::faulty(state, Fault::Empty),
        None => cursor::faulty(state, Fault::Request),
    }
}

// The line's request.
fn open(input: &mut impl Read, buffer: &mut Buffer, state: &mut State, table: &[u8]) {
    cursor::begin_line(state);
    cursor::next(input, buffer, state);
    begin(buffer, state, table);
}

// A token of a kind that is no float, to its slot.
fn take(
    buffer: &[u8],
    state: &mut State,
    levels: &mut Levels,
    file: &mut File,
    kind: Kind,
    at: usize,
) {
    match kind {
        Kind::Form | Kind::Border | Kind::Padding | Kind::Kernel => {
            number::take_word(buffer, state, kind, at)
        }
        Kind::Count => number::take_count(buffer, state, at),
        Kind::Whole | Kind::Level => number::take_level(buffer, state, levels, at),
        Kind::Bytes => number::take_bytes(buffer, state, file, at),
    }
}

// Token i of a part, which has to be there.
fn read_token(
    input: &mut impl Read,
    buffer: &mut Buffer,
    state: &mut State,
    levels: &mut Levels,
    floats: &mut Floats,
    file: &mut File,
    part: Part,
    i: usize,
) {
    let kind = part.0;
    let at = ndimage_parts::slot_of(part.2, part.3, i);
    cursor::next(input, buffer, state);
    if state[LEN] == 0 {
        cursor::faulty(state, Fault::Missing);
        return;
    }
    if ndimage_parts::is_float(kind, state[FORM]) {
        number::take_float(buffer, state, floats, at);
        return;
    }
    take(buffer, state, levels, file, kind, at);
}

// The tokens of a part.
fn read_part(
    input: &mut impl Read,
    buffer: &mut Buffer,
    state: &mut State,
    levels: &mut Levels,
    floats: &mut Floats,
    file: &mut File,
    part: Part,
) {
    let rule = part.1;
    let times = ndimage_parts::times(rule, state[LAST]);
    for i in 0..times {
        if state[FAULT] != 0 {
            break;
        }
        read_token(input, buffer, state, levels, floats, file, part, i);
    }
}

// The parts of a request, by their letters.
fn read_parts(
    input: &mut impl Read,
    buffer: &mut Buffer,
    state: &mut State,
    levels: &mut Levels,
    floats: &mut Floats,
    file: &mut File,
    letters: &[u8],
) {
    for &letter in letters {
        if state[FAULT] != 0 {
            break;
        }
        let part = ndimage_parts::part_of(letter);
        read_part(input, buffer, state, levels, floats, file, part);
    }
}

// A line: its request, with the parts that it has.
pub fn read(
    input: &mut impl Read,
    buffer: &mut Buffer,
    state: &mut State,
    levels: &mut Levels,
    floats: &mut Floats,
    file: &mut File,
) {
    let table = ndimage_parts::requests::table();
    open(input, buffer, state, &table);
    let letters = words::rest_at(&table, state[REQUEST]);
    read_parts(input, buffer, state, levels, floats, file, letters);
    cursor::finish(input, buffer, state);
}
