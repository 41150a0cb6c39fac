// Answers requests on standard input, a line each, with a line each on standard output.
//
// What was read as arguments is promised by `ndimage_arguments`, and what a call answers by the library. The functions
// here promise nothing but that they are safe and end: they choose the call of a request and lend it what was read
// (`apply`, `two_grids`, `every_axis`, `vote` and what is named after a call), or write the answer.
#![tactic(auto)]

use ndimage_parts::state::{
    Buffer, FAULT, FORM, File, Floats, LEN, Levels, REQUEST, State, fault_in, fault_number,
};
use ndimage_read::cursor;
use ndimage_spec::Fault;
use std::io::{Print, Read};

mod filter;
mod filter_f64;
mod kernel;
mod mask;
mod padding;
mod recipe;
mod request;

type Out = [i64; 32769];

// The answer to what was read, or what is wrong with it.
fn answer(
    rt: &impl Print,
    state: &State,
    levels: &Levels,
    floats: &Floats,
    file: &File,
    out: &mut Out,
) -> Result<(), Fault> {
    if let Some(fault) = fault_in(state[FAULT]) {
        return Err(fault);
    }
    if ndimage_arguments::is_whole(state[REQUEST], state[FORM]) {
        return request::whole(rt, state, levels, file, out);
    }
    request::other(rt, state, levels, floats, file)
}

// A line: what it asks for, or what is wrong with it. Behind the last line feed there is none.
fn serve(
    rt: &impl Print,
    input: &mut impl Read,
    buffer: &mut Buffer,
    state: &mut State,
    levels: &mut Levels,
    floats: &mut Floats,
    file: &mut File,
    out: &mut Out,
) {
    ndimage_read::read(input, buffer, state, levels, floats, file);
    if cursor::past(state) {
        return;
    }
    if let Err(fault) = answer(rt, state, levels, floats, file, out) {
        ndimage_write::error(rt, buffer, state[LEN], fault_number(fault));
    }
}

// The arrays are made once.
fn main(rt: HostRuntime) {
    let mut buffer = [0u8; 65792];
    let mut state = [0usize; 48];
    let mut levels = [0i64; 41406];
    let mut floats = [0.0; 8538];
    let mut file = [0u8; 128];
    let mut out = [0i64; 32769];
    let mut input = rt.stdin();
    for _ in 0..u64::MAX {
        serve(
            &rt,
            &mut input,
            &mut buffer,
            &mut state,
            &mut levels,
            &mut floats,
            &mut file,
            &mut out,
        );
        if cursor::over(&state) {
            break;
        }
    }
}
