// Reading standard input token by token. A token is what stands between spaces; only its first bytes are kept.
ghost use Rattle.std.specs.Prelude.{◌≡◌};
ghost use Rattle.ndimage_spec.specs.Reading.{input_ended, no_line, end_behind};

use ndimage_parts::state::{AT, Buffer, END, FAULT, LEN, LINE, STAGE, State, fault_number};
use ndimage_spec::Fault;
use std::io::Read;

// How many bytes of a token are kept, in front of what was read.
const KEPT: usize = 256;

// In a token or before it; the token is whole; the line has ended; the input has ended.
const OPEN: usize = 0;

const SPACE: usize = 1;

const LINE_END: usize = 2;

const INPUT_END: usize = 3;

const LONGEST: usize = 1000000;

// Goes on with the next line.
pub(crate) fn begin_line(state: &mut State) {
    state[LINE] = 0;
    state[STAGE] = OPEN;
    state[FAULT] = 0;
}

// Whether the input has ended.
pub fn over(state: &State) -> bool
    ensures { result ≡ input_ended state.now }
{
    state[STAGE] == INPUT_END
}

// Whether there was no line: the input ended before its first byte.
pub fn past(state: &State) -> bool
    ensures { result ≡ no_line state.now }
{
    state[STAGE] == INPUT_END && state[LINE] == 0
}

// Notes a fault; the first one stays.
pub(crate) fn faulty(state: &mut State, fault: Fault) {
    if state[FAULT] == 0 {
        state[FAULT] = fault_number(fault);
    }
}

// Reads behind the token: how many bytes.
fn bring(input: &mut impl Read, buffer: &mut [u8]) -> usize {
    if buffer.len() < KEPT {
        return 0;
    }
    input.read(&mut buffer[KEPT..]).unwrap_or(0)
}

// More bytes, or the end of the input.
fn fill(input: &mut impl Read, buffer: &mut Buffer, state: &mut State) {
    let n = bring(input, buffer);
    if n == 0 {
        state[STAGE] = INPUT_END;
        return;
    }
    state[AT] = KEPT;
    state[END] = behind(n);
}

// Where n bytes end that were read behind the token.
fn behind(n: usize) -> usize
    ensures { result ≡ end_behind n }
{
    if n > 65536 { KEPT } else { KEPT + n }
}

// Counts a byte of the line; its end does not count.
fn lengthen(state: &mut State, byte: u8) {
    let line = state[LINE];
    if byte != b'\n' && line <= LONGEST {
        state[LINE] = line + 1;
    }
}

// The next byte; None where more bytes had to be brought into the buffer first, or the input has ended.
fn advance(input: &mut impl Read, buffer: &mut Buffer, state: &mut State) -> Option<u8> {
    let at = state[AT];
    if at >= state[END] {
        fill(input, buffer, state);
        return None;
    }
    if at >= buffer.len() {
        state[STAGE] = INPUT_END;
        return None;
    }
    state[AT] = at + 1;
    let byte = buffer[at];
    lengthen(state, byte);
    Some(byte)
}

// Keeps a byte of the token where there is buffer.
fn keep(buffer: &mut Buffer, n: usize, byte: u8) {
    if n < KEPT {
        buffer[n] = byte;
    }
}

// What a byte does; after a fault only the end of the line counts.
fn take(buffer: &mut Buffer, state: &mut State, byte: u8) {
    let len = state[LEN];
    if byte == b'\n' {
        state[STAGE] = LINE_END;
        return;
    }
    if state[FAULT] != 0 {
        return;
    }
    if byte == b' ' {
        if len != 0 {
            state[STAGE] = SPACE;
        }
        return;
    }
    if len <= KEPT {
        keep(buffer, len, byte);
        state[LEN] = len + 1;
    }
}

// One byte, or more bytes into the buffer.
fn turn(input: &mut impl Read, buffer: &mut Buffer, state: &mut State) {
    if let Some(byte) = advance(input, buffer, state) {
        take(buffer, state, byte);
    }
}

// Reads on to a stage or a later one.
fn run(input: &mut impl Read, buffer: &mut Buffer, state: &mut State, stage: usize) {
    for _ in 0..u64::MAX {
        if state[STAGE] >= stage {
            break;
        }
        turn(input, buffer, state);
    }
}

// The next token of the line: its length is 0 where there is none.
pub(crate) fn next(input: &mut impl Read, buffer: &mut Buffer, state: &mut State) {
    state[LEN] = 0;
    if state[STAGE] == SPACE {
        state[STAGE] = OPEN;
    }
    run(input, buffer, state, SPACE);
}

// Nothing may follow.
fn expect_end(input: &mut impl Read, buffer: &mut Buffer, state: &mut State) {
    if state[FAULT] != 0 {
        return;
    }
    next(input, buffer, state);
    if state[LEN] != 0 {
        faulty(state, Fault::Extra);
    }
}

// A line that is too long is a fault that counts before every other.
fn measure(state: &mut State) {
    if state[LINE] > LONGEST {
        state[LEN] = 0;
        state[FAULT] = fault_number(Fault::Long);
    }
}

// The end of the request.
pub(crate) fn finish(input: &mut impl Read, buffer: &mut Buffer, state: &mut State) {
    expect_end(input, buffer, state);
    run(input, buffer, state, LINE_END);
    measure(state);
}
