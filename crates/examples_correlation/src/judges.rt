// The examples of the judges of `correlate_judge`, `gradient`, `uniform` and `median`; those of the calls are requests
// of `ndimage`.
use border::BorderMode;
use examples_print::{answer, test};
use std::io::Print;

// A kernel under Wrap, correlated and convolved.
fn kernels(rt: &impl Print, cells: &[i64], shape: &[usize], weights: &[i64], sides: &[usize]) {
    let wrap = BorderMode::Wrap;
    answer(
        rt,
        correlate_judge::judge_kernel(cells, shape, weights, sides, wrap, 0, false, 1),
    );
    answer(
        rt,
        correlate_judge::judge_kernel(cells, shape, weights, sides, wrap, 0, true, 1),
    );
}

// One cell with a kernel of two.
pub(crate) fn one_cell(rt: &impl Print) {
    kernels(rt, &[5], &[1], &[1, 1], &[2]);
}

// Both axes, the second under Mirror.
fn axes(rt: &impl Print, cells: &[i64], shape: &[usize]) {
    let modes = [BorderMode::Nearest, BorderMode::Mirror, BorderMode::Nearest];
    answer(rt, gradient::judge_gradient(cells, shape, 0, modes, 4, 4));
    answer(rt, gradient::judge_gradient(cells, shape, 1, modes, 4, 4));
}

// An axis of one cell.
pub(crate) fn gradients(rt: &impl Print) {
    axes(rt, &[1, 2, 3, 4], &[4, 1]);
}

// Sizes 5 and 7 on a line under Mirror.
fn sizes(rt: &impl Print, cells: &[i64], shape: &[usize]) {
    let mirror = BorderMode::Mirror;
    answer(rt, uniform::judge_uniform1d(cells, shape, 5, 0, mirror, 3));
    answer(rt, uniform::judge_uniform1d(cells, shape, 7, 0, mirror, 3));
}

// Sizes 3 and 5 on one cell under Nearest.
fn small_sizes(rt: &impl Print, cells: &[i64], shape: &[usize]) {
    let modes = [
        BorderMode::Nearest,
        BorderMode::Nearest,
        BorderMode::Nearest,
    ];
    answer(rt, uniform::judge_uniform(cells, shape, 3, modes, 1, 1));
    answer(rt, uniform::judge_uniform(cells, shape, 5, modes, 1, 1));
}

// Size 5 under two borders, and under the same exchanged.
fn own_sizes(rt: &impl Print, cells: &[i64], shape: &[usize], first: BorderMode, next: BorderMode) {
    answer(
        rt,
        uniform::judge_uniform(cells, shape, 5, [first, next, first], 18, 18),
    );
    answer(
        rt,
        uniform::judge_uniform(cells, shape, 5, [next, first, first], 18, 18),
    );
}

pub(crate) fn means(rt: &impl Print) {
    sizes(rt, &[1, 2, 3], &[3]);
    small_sizes(rt, &[5], &[1]);
    own_sizes(
        rt,
        &[0; 18],
        &[9, 2],
        BorderMode::Nearest,
        BorderMode::Mirror,
    );
}

// Two axes, and an axis of one cell.
fn cubes(rt: &impl Print, two: &[usize], single: &[usize], whole: &[usize]) {
    test(rt, median::bad_axes(whole));
    test(rt, median::bad_axes(two));
    test(rt, median::bad_single(whole));
    test(rt, median::bad_single(single));
    answer(rt, median::judge_median(single, 5, 4));
    answer(rt, median::judge_median(single, 4, 4));
}

pub(crate) fn masks(rt: &impl Print) {
    cubes(rt, &[2, 2], &[2, 1, 2], &[2, 2, 2]);
}
