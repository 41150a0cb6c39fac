// The examples of `array` and `lanes`.
use examples_print::{answer, levels, line, test};
use std::io::Print;

fn counted(rt: &impl Print, shape: &[usize]) {
    line(rt, array::cell_count(shape));
}

// The lengths and the cells of two axes, and what is asked of them.
fn two_axes(rt: &impl Print, shape: &[usize]) {
    line(rt, array::len_of(shape, 1));
    line(rt, array::len_of(shape, 2));
    counted(rt, shape);
    test(rt, array::bad_length(shape, 6));
    test(rt, array::bad_length(shape, 5));
    test(rt, array::bad_lengths(shape, &[6, 6]));
    test(rt, array::bad_lengths(shape, &[6, 5]));
    test(rt, array::bad_axis(shape, 1));
    test(rt, array::bad_axis(shape, 2));
}

pub(crate) fn shapes(rt: &impl Print) {
    two_axes(rt, &[2, 3]);
    counted(rt, &[]);
    counted(rt, &[0]);
}

// Whether a shape is refused, and how many cells it has.
fn judged(rt: &impl Print, shape: &[usize]) {
    test(rt, array::bad_shape(shape));
    counted(rt, shape);
}

pub(crate) fn limits(rt: &impl Print) {
    judged(rt, &[1024]);
    judged(rt, &[1025]);
    judged(rt, &[8, 1024]);
}

pub(crate) fn large_shapes(rt: &impl Print) {
    judged(rt, &[128, 128]);
    judged(rt, &[18446744073709551615, 2]);
}

pub(crate) fn level_conditions(rt: &impl Print) {
    test(rt, array::bad_level(-2147483648));
    test(rt, array::bad_level(-2147483647));
    test(rt, array::bad_levels(&[0, 2147483647]));
    test(rt, array::bad_levels(&[0, 2147483648]));
    test(rt, array::bad_level_f64(-0.0));
    test(rt, array::bad_level_f64(1.0 / 0.0));
    test(rt, array::bad_levels_f64(&[1.0, 0.0 / 0.0]));
}

pub(crate) fn levels_outside(rt: &impl Print) {
    test(rt, array::any_outside(&[2147483648]));
    test(rt, array::any_outside(&[2147483647]));
    test(rt, array::any_over(&[2147483648]));
    test(rt, array::any_over(&[2147483647]));
    line(rt, array::lifted(-1) as usize);
    line(rt, array::lifted(-1073741825) as usize);
}

pub(crate) fn judges(rt: &impl Print) {
    answer(rt, array::judge_grid(&[1, 2, 3], &[2, 2], &[4]));
    answer(rt, array::judge_grid_f64(&[0.0 / 0.0], &[1], &[1]));
    answer(rt, array::judge_grid_f64(&[-0.0], &[1], &[1]));
}

// Cells for a grid of 2 times 2; a refused call leaves the output.
fn assigned(rt: &impl Print, cells: &[i64]) {
    let mut out = [7i64; 4];
    answer(rt, array::assign(cells, &[2, 2], &mut out));
    levels(rt, &out);
}

pub(crate) fn copies(rt: &impl Print) {
    let mut out = [1i64, 2, 3, 4];
    assigned(rt, &[1, 2, 3, 4]);
    assigned(rt, &[5, 6, 7]);
    array::copy(&[8, 9], &mut out);
    levels(rt, &out);
}

fn lane(rt: &impl Print, lane: lanes::Lanes) {
    line(rt, lane.len);
    line(rt, lane.stride);
    line(rt, lane.count);
}

// A column of the rows 1 2 3 / 4 5 6; a lane that is not there leaves the line.
fn column(rt: &impl Print, number: usize) {
    let mut cells = [0i64; 2];
    lane_cells::read_lane(&[1, 2, 3, 4, 5, 6], 3, number, &mut cells);
    levels(rt, &cells);
}

pub(crate) fn read_lanes(rt: &impl Print) {
    lane(rt, lanes::lanes_of(&[2, 3], 0));
    column(rt, 1);
    column(rt, 3);
}
