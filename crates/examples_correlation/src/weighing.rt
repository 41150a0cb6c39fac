// The examples of `correlate_judge`: weights at their limits, and the numbers of calls, whole and float.
use border::{BorderMode, BorderModeF64};
use examples_print::{answer, test};
use std::io::Print;

pub(crate) fn weights(rt: &impl Print) {
    test(rt, correlate_judge::bad_weight(65535));
    test(rt, correlate_judge::bad_weight(-65536));
    test(rt, correlate_judge::bad_weights(&[1, 65536]));
}

// Under Mirror, correlated and convolved.
fn both(rt: &impl Print, cells: &[i64], shape: &[usize], weights: &[i64]) {
    let mirror = BorderMode::Mirror;
    answer(
        rt,
        correlate_judge::judge_correlate(cells, shape, weights, 0, mirror, 0, false, 3),
    );
    answer(
        rt,
        correlate_judge::judge_correlate(cells, shape, weights, 0, mirror, 0, true, 3),
    );
}

// Five and seven weights.
fn two_counts(rt: &impl Print, cells: &[i64], shape: &[usize]) {
    both(rt, cells, shape, &[1; 5]);
    both(rt, cells, shape, &[1; 7]);
}

pub(crate) fn judges(rt: &impl Print) {
    two_counts(rt, &[1, 2, 3], &[3]);
}

// One cell and one weight under Wrap.
fn single(rt: &impl Print, cells: &[f64], weights: &[f64], shape: &[usize]) {
    let wrap = BorderModeF64::Wrap;
    answer(
        rt,
        correlate_judge::judge_correlate_f64(cells, shape, weights, 0, wrap, 0, false, 1),
    );
}

// An infinite weight, and a level -0.0.
pub(crate) fn judges_f64(rt: &impl Print) {
    single(rt, &[1.0], &[1.0 / 0.0], &[1]);
    single(rt, &[-0.0], &[1.0], &[1]);
}
