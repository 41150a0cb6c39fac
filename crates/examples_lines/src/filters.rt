// The examples of `min_max_judge`; those of `min_max` are requests of `ndimage`.
use border::BorderMode;
use examples_print::{answer, test};
use std::io::Print;

fn grid_number(
    rt: &impl Print,
    cells: &[i64],
    shape: &[usize],
    size: usize,
    modes: [BorderMode; 3],
    second: usize,
) {
    answer(
        rt,
        min_max_judge::judge_filter(cells, shape, size, modes, 0, cells, second),
    );
}

// Origin 1 of length 2, axis 2, Mirror with length 5 on the first axis of two cells, on the second, past it, a second
// grid of 3 cells.
fn numbers(rt: &impl Print, cells: &[i64], shape: &[usize]) {
    let nearest = BorderMode::Nearest;
    let mirror = BorderMode::Mirror;
    answer(
        rt,
        min_max_judge::judge_call(cells, shape, 2, 0, nearest, 1, cells),
    );
    answer(
        rt,
        min_max_judge::judge_call(cells, shape, 2, 2, nearest, 0, cells),
    );
    grid_number(rt, cells, shape, 5, [mirror, nearest, nearest], 4);
    grid_number(rt, cells, shape, 5, [nearest, mirror, nearest], 4);
    grid_number(rt, cells, shape, 5, [nearest, nearest, mirror], 4);
    grid_number(rt, cells, shape, 2, [mirror, mirror, mirror], 3);
}

pub(crate) fn judges(rt: &impl Print) {
    numbers(rt, &[5, 3, 4, 9], &[2, 2]);
    test(rt, window::bad_window_origin(4, 2));
    test(rt, window::bad_window_origin(1, 99));
}
