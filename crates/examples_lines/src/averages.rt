// The examples of `statistics`.
use examples_print::level_line;
use std::io::Print;

// What a line has.
fn statistics(rt: &impl Print, cells: &[i64]) {
    level_line(rt, statistics::minimum(cells));
    level_line(rt, statistics::maximum(cells));
    level_line(rt, statistics::mean(cells));
    level_line(rt, statistics::median(cells));
}

pub(crate) fn lines(rt: &impl Print) {
    statistics(rt, &[4, 2, 7, 1]);
    statistics(rt, &[]);
    statistics(rt, &[1, 2, 4, 9]);
}

pub(crate) fn odd_lines(rt: &impl Print) {
    statistics(rt, &[-1, -2]);
    statistics(rt, &[2147483648]);
}
