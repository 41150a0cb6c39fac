// Correlation and convolution of floats along an axis.
use border::BorderModeF64;
use ndimage_parts::requests::CORRELATE1D;
use ndimage_parts::state::{AXIS, Floats, OUT, REQUEST, State};
use numbers::Refusal;
use std::io::Print;

// The call, and its answer.
fn apply(
    state: &State,
    floats: &[f64],
    mode: BorderModeF64,
    origin: i64,
    out: &mut [f64],
) -> Result<(), Refusal> {
    let shape = ndimage_arguments::shape(state);
    let data = ndimage_arguments::data_f64(state, floats);
    let weights = ndimage_arguments::weights_f64(state, floats);
    let axis = state[AXIS];
    if state[REQUEST] == CORRELATE1D {
        return correlate1d_f64::correlate1d_f64(
            data,
            shape,
            weights,
            axis,
            mode,
            origin as isize,
            out,
        );
    }
    correlate1d_f64::convolve1d_f64(data, shape, weights, axis, mode, origin as isize, out)
}

fn answered(rt: &impl Print, answer: Result<(), Refusal>, out: &[f64]) {
    match answer {
        Ok(()) => ndimage_write::levels_f64(rt, out),
        Err(refusal) => ndimage_write::refused(rt, refusal as u8),
    }
}

// The call and its answer.
fn answer(rt: &impl Print, state: &State, floats: &Floats, origin: i64, out: &mut [f64]) {
    let answer = apply(
        state,
        floats,
        ndimage_arguments::border_of_f64(state, floats),
        origin,
        out,
    );
    answered(rt, answer, out);
}

pub(crate) fn filter(rt: &impl Print, state: &State, floats: &Floats, origin: i64) {
    let mut out = [0.0; 8193];
    let n = ndimage_arguments::lent(state[OUT], 8193);
    answer(rt, state, floats, origin, &mut out[0..n]);
}
