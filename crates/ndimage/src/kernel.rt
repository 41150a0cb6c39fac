// `symmetry` and `kernel3d`.
use ndimage_parts::state::{CELLS, FORM, Floats, Levels, State};
use ndimage_spec::Fault;
use std::io::Print;
use symmetry_spec::SymmetryState;

const MOST: usize = 8192;

// The word of a class.
fn class(rt: &impl Print, state: SymmetryState) {
    let words = codes::class_words();
    ndimage_write::say(rt, words::word_at(&words, codes::code_of(state) as usize));
    ndimage_write::say(rt, b"\n");
}

// The class of weights; more than can be held are a fault.
pub(crate) fn symmetry(
    rt: &impl Print,
    state: &State,
    levels: &Levels,
    floats: &Floats,
) -> Result<(), Fault> {
    let n = state[CELLS];
    if n > MOST {
        return Err(Fault::Weights);
    }
    if state[FORM] == 1 {
        class(
            rt,
            symmetry::symmetry_state_f64(ndimage_arguments::floats(floats, 0, n)),
        );
        return Ok(());
    }
    class(
        rt,
        symmetry::symmetry_state_i64(ndimage_arguments::levels(levels, 0, n)),
    );
    Ok(())
}

// A kernel's cells.
pub(crate) fn show(rt: &impl Print, state: &State) {
    let mut levels = [0i64; 27];
    ndimage_arguments::fill_kernel(
        codes::kernel_of(ndimage_arguments::code(state)),
        &mut levels,
    );
    ndimage_write::levels(rt, &levels);
}
