// What a request that was read asks for.
use crate::{filter, filter_f64, kernel, mask, padding, recipe};
use ndimage_parts::requests::{
    CONVOLVE, CONVOLVE1D, CORRELATE, CORRELATE1D, HELP, KERNEL3D, MAXIMUM1D, MEDIAN, MINIMUM1D,
    PAD, PAD_TO, PLAY, READ_RECIPE, SYMMETRY, UNIFORM1D, WRITE_RECIPE,
};
use ndimage_parts::state::{File, Floats, Levels, ORIGIN_AT, OUT, REQUEST, State};
use ndimage_spec::Fault;
use numbers::Refusal;
use std::io::Print;

// The call, and its answer.
fn apply(state: &State, levels: &[i64], file: &File, out: &mut [i64]) -> Result<(), Refusal> {
    let shape = ndimage_arguments::shape(state);
    let data = ndimage_arguments::data(state, levels);
    let request = state[REQUEST];
    match request {
        CORRELATE | CONVOLVE => crate::filter::kernel(state, levels, data, shape, out),
        CORRELATE1D | CONVOLVE1D => crate::filter::weigh(state, levels, data, shape, out),
        MINIMUM1D | MAXIMUM1D => crate::filter::extreme1d(state, levels, data, shape, out),
        UNIFORM1D => crate::filter::uniform1d(state, levels, data, shape, out),
        PAD | PAD_TO => crate::padding::padding(state, levels, data, shape, out),
        PLAY => crate::recipe::play(state, file, data, shape, out),
        _ => crate::filter::every_axis(state, levels, data, shape, out),
    }
}

// The number of a refusal, or the levels.
fn answered(rt: &impl Print, answer: Result<(), Refusal>, out: &[i64]) {
    match answer {
        Ok(()) => ndimage_write::levels(rt, out),
        Err(refusal) => ndimage_write::refused(rt, refusal as u8),
    }
}

// The median and its answer; a fault where the mask has other levels than 0 and 1.
fn median(rt: &impl Print, state: &State, levels: &[i64], out: &mut [i64]) -> Result<(), Fault> {
    let shape = ndimage_arguments::shape(state);
    let data = ndimage_arguments::data(state, levels);
    let answer = crate::mask::median(data, shape, out).ok_or(Fault::Mask)?;
    answered(rt, answer, out);
    Ok(())
}

// The call and its answer, or what is wrong with it.
fn answer(
    rt: &impl Print,
    state: &State,
    levels: &[i64],
    file: &File,
    out: &mut [i64],
) -> Result<(), Fault> {
    if state[REQUEST] == MEDIAN {
        return median(rt, state, levels, out);
    }
    let answer = apply(state, levels, file, out);
    answered(rt, answer, out);
    Ok(())
}

// A request with an output of whole levels, or what is wrong with it.
pub(crate) fn whole(
    rt: &impl Print,
    state: &State,
    levels: &[i64],
    file: &File,
    out: &mut [i64],
) -> Result<(), Fault> {
    let n = ndimage_arguments::lent(
        ndimage_arguments::lent(state[OUT], ndimage_arguments::most_out(state[REQUEST])),
        out.len(),
    );
    answer(rt, state, levels, file, &mut out[0..n])
}

// Any other request, or what is wrong with it.
pub(crate) fn other(
    rt: &impl Print,
    state: &State,
    levels: &Levels,
    floats: &Floats,
    file: &File,
) -> Result<(), Fault> {
    let request = state[REQUEST];
    match request {
        SYMMETRY => crate::kernel::symmetry(rt, state, levels, floats)?,
        KERNEL3D => crate::kernel::show(rt, state),
        READ_RECIPE => crate::recipe::read(rt, state, file),
        WRITE_RECIPE => crate::recipe::write(rt, state, levels)?,
        HELP => ndimage_write::show_help(rt),
        _ => crate::filter_f64::filter(rt, state, floats, levels[ORIGIN_AT]),
    }
    Ok(())
}
