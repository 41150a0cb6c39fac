// The examples of `min_max_ring` and `min_max_line`.
use examples_print::{levels, line, test};
use std::io::Print;

pub(crate) fn rings(rt: &impl Print) {
    line(rt, min_max_ring::place(64));
    line(rt, min_max_ring::place(65));
    test(rt, min_max_ring::serves(6, 3, 4));
    test(rt, min_max_ring::serves(6, 3, 6));
}

// The extremes of the windows of a line.
fn windows(rt: &impl Print, cells: &[i64], n: usize) {
    let mut least = [0i64; 4];
    let mut greatest = [0i64; 4];
    min_max_line::minimum_line(cells, n, &mut least);
    min_max_line::maximum_line(cells, n, &mut greatest);
    levels(rt, &least);
    levels(rt, &greatest);
}

// Windows of 4 cells are three, and leave the four cells of each output as they were.
pub(crate) fn lines(rt: &impl Print) {
    let cells = [4i64, 4, 2, 7, 1, 1];
    windows(rt, &cells, 3);
    windows(rt, &cells, 4);
}
