// Numbers out of tokens, each straight to its slot in what is lent. What is taken steps the state, or levels and
// floats: only the token itself is promised.
ghost use Rattle.std.specs.Prelude.{◌≡◌};
ghost use Rattle.ndimage_spec.specs.Reading.{token_in};

use crate::{cursor, hexadecimal};
use ndimage_parts::state::{File, Floats, LAST, LEN, Levels, State};
use ndimage_spec::{Fault, Kind};

// The token's bytes; of one that is longer than what is kept, nothing, which is no word and no number.
pub(crate) fn shown(buffer: &[u8], len: usize) -> &[u8]
    ensures { result.now ≡ token_in buffer.now len }
{
    if len > 256 || len > buffer.len() {
        return &[];
    }
    &buffer[..len]
}

// Keeps a count where there is a slot for it.
fn keep(state: &mut State, at: usize, n: usize) {
    if let Some(slot) = state.get_mut(at) {
        *slot = n;
    }
}

pub(crate) fn take_count(buffer: &[u8], state: &mut State, at: usize) {
    let Some(n) = text::read_unsigned(shown(buffer, state[LEN])) else {
        cursor::faulty(state, Fault::Number);
        return;
    };
    state[LAST] = n as usize;
    keep(state, at, n as usize);
}

pub(crate) fn take_level(buffer: &[u8], state: &mut State, levels: &mut Levels, at: usize) {
    let Some(z) = text::read_signed(shown(buffer, state[LEN])) else {
        cursor::faulty(state, Fault::Number);
        return;
    };
    if let Some(level) = levels.get_mut(at) {
        *level = z;
    }
}

pub(crate) fn take_float(buffer: &[u8], state: &mut State, floats: &mut Floats, at: usize) {
    let Some(x) = text_f64::read_float(shown(buffer, state[LEN])) else {
        cursor::faulty(state, Fault::Number);
        return;
    };
    if let Some(float) = floats.get_mut(at) {
        *float = x;
    }
}

// The bytes of a token to the file, and their number to a slot.
pub(crate) fn take_bytes(buffer: &[u8], state: &mut State, file: &mut File, at: usize) {
    let len = state[LEN];
    if len > 256 {
        cursor::faulty(state, Fault::ManyBytes);
        return;
    }
    let token = shown(buffer, len);
    if hexadecimal::bad_bytes(token) {
        cursor::faulty(state, Fault::Bytes);
        return;
    }
    hexadecimal::fill_bytes(token, file);
    keep(state, at, hexadecimal::byte_count(token));
}

// The code of a word.
pub(crate) fn take_word(buffer: &[u8], state: &mut State, kind: Kind, at: usize) {
    let Some(code) = ndimage_parts::code_of(kind, shown(buffer, state[LEN])) else {
        cursor::faulty(state, ndimage_parts::fault_of(kind));
        return;
    };
    state[LAST] = ndimage_parts::last_after(code);
    keep(state, at, code);
}
