// `pad` and `pad_to`.
use ndimage_parts::requests::PAD;
use ndimage_parts::state::{HELD_AT, PAIRS, REQUEST, State};
use numbers::Refusal;

// The call, and its answer; `pad_to` finds in the output what it is to hold before.
pub(crate) fn padding(
    state: &State,
    levels: &[i64],
    data: &[i64],
    shape: &[usize],
    out: &mut [i64],
) -> Result<(), Refusal> {
    let count = state[PAIRS];
    let pads = ndimage_arguments::pads_of(state);
    let mode = ndimage_arguments::padding_of(state, levels);
    if state[REQUEST] == PAD {
        return pad::pad(data, shape, pads, count, mode, out);
    }
    let held = ndimage_arguments::levels(levels, HELD_AT, out.len());
    array::copy(held, out);
    pad::pad_to(data, shape, pads, count, mode, out)
}
