// The filters of whole levels: each calls the library on what was read, and answers what the call answers.
use border::BorderMode;
use ndimage_parts::requests::{
    CORRELATE, CORRELATE1D, MAXIMUM, MINIMUM, MINIMUM1D, PREWITT, UNIFORM,
};
use ndimage_parts::state::{AXIS, REQUEST, SECOND, SIZE, State};
use numbers::Refusal;

// Grid kernels.
pub(crate) fn kernel(
    state: &State,
    levels: &[i64],
    data: &[i64],
    shape: &[usize],
    out: &mut [i64],
) -> Result<(), Refusal> {
    let weights = ndimage_arguments::weights(state, levels);
    let sides = ndimage_arguments::sides(state);
    let mode = ndimage_arguments::border_of(state, levels);
    let origin = ndimage_arguments::origin_of(levels);
    if state[REQUEST] == CORRELATE {
        return correlate::correlate(data, shape, weights, sides, mode, origin, out);
    }
    correlate::convolve(data, shape, weights, sides, mode, origin, out)
}

// Weights along an axis.
pub(crate) fn weigh(
    state: &State,
    levels: &[i64],
    data: &[i64],
    shape: &[usize],
    out: &mut [i64],
) -> Result<(), Refusal> {
    let weights = ndimage_arguments::weights(state, levels);
    let mode = ndimage_arguments::border_of(state, levels);
    let origin = ndimage_arguments::origin_of(levels);
    if state[REQUEST] == CORRELATE1D {
        return correlate1d::correlate1d(data, shape, weights, state[AXIS], mode, origin, out);
    }
    correlate1d::convolve1d(data, shape, weights, state[AXIS], mode, origin, out)
}

// The extremes of windows along an axis.
pub(crate) fn extreme1d(
    state: &State,
    levels: &[i64],
    data: &[i64],
    shape: &[usize],
    out: &mut [i64],
) -> Result<(), Refusal> {
    let mode = ndimage_arguments::border_of(state, levels);
    let origin = ndimage_arguments::origin_of(levels);
    let size = state[SIZE];
    let axis = state[AXIS];
    if state[REQUEST] == MINIMUM1D {
        return min_max::minimum_filter1d(data, shape, size, axis, mode, origin, out);
    }
    min_max::maximum_filter1d(data, shape, size, axis, mode, origin, out)
}

// Means of windows along an axis.
pub(crate) fn uniform1d(
    state: &State,
    levels: &[i64],
    data: &[i64],
    shape: &[usize],
    out: &mut [i64],
) -> Result<(), Refusal> {
    let mode = ndimage_arguments::border_of(state, levels);
    uniform::uniform_filter1d(data, shape, state[SIZE], state[AXIS], mode, out)
}

// The extremes of windows along every axis.
fn extreme(
    request: usize,
    data: &[i64],
    shape: &[usize],
    size: usize,
    modes: [BorderMode; 3],
    origin: isize,
    second: &mut [i64],
    out: &mut [i64],
) -> Result<(), Refusal> {
    if request == MINIMUM {
        return min_max::minimum_filter(data, shape, size, modes, origin, second, out);
    }
    min_max::maximum_filter(data, shape, size, modes, origin, second, out)
}

fn gradient(
    request: usize,
    data: &[i64],
    shape: &[usize],
    axis: usize,
    modes: [BorderMode; 3],
    second: &mut [i64],
    out: &mut [i64],
) -> Result<(), Refusal> {
    if request == PREWITT {
        return gradient::prewitt(data, shape, axis, modes, second, out);
    }
    gradient::sobel(data, shape, axis, modes, second, out)
}

// The filters with a second grid.
fn two_grids(
    state: &State,
    data: &[i64],
    shape: &[usize],
    modes: [BorderMode; 3],
    origin: isize,
    second: &mut [i64],
    out: &mut [i64],
) -> Result<(), Refusal> {
    let request = state[REQUEST];
    match request {
        UNIFORM => uniform::uniform_filter(data, shape, state[SIZE], modes, second, out),
        MINIMUM | MAXIMUM => extreme(
            request,
            data,
            shape,
            state[SIZE],
            modes,
            origin,
            second,
            out,
        ),
        _ => gradient(request, data, shape, state[AXIS], modes, second, out),
    }
}

// The same; the second grid has what was asked, or one cell more than any call takes.
pub(crate) fn every_axis(
    state: &State,
    levels: &[i64],
    data: &[i64],
    shape: &[usize],
    out: &mut [i64],
) -> Result<(), Refusal> {
    let mut second = [0i64; 8193];
    let n = ndimage_arguments::lent(state[SECOND], 8193);
    let modes = ndimage_arguments::borders_of(state, levels);
    let origin = ndimage_arguments::origin_of(levels);
    two_grids(state, data, shape, modes, origin, &mut second[0..n], out)
}
