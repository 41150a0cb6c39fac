// The examples of `pad_line` and `window`.
use border::BorderMode;
use examples_print::{levels, line, test};
use std::io::Print;

// Pads of three cells.
pub(crate) fn pad_conditions(rt: &impl Print) {
    test(rt, border::bad_pad(BorderMode::Mirror, 3, 2));
    test(rt, border::bad_pad(BorderMode::Mirror, 3, 3));
    test(rt, border::bad_pad(BorderMode::Reflect, 3, 3));
    test(rt, border::bad_pad(BorderMode::Reflect, 3, 4));
    test(rt, border::bad_pad(BorderMode::Wrap, 3, 3));
    test(rt, border::bad_pad(BorderMode::Wrap, 3, 4));
    test(
        rt,
        border::bad_pad(BorderMode::Nearest, 3, 18446744073709551615),
    );
    test(
        rt,
        border::bad_pad(BorderMode::Constant(0), 3, 18446744073709551615),
    );
}

// Lanes of three cells of a grid of 6, with pads 2 and 2.
pub(crate) fn fits(rt: &impl Print) {
    test(rt, pad_line::lane_fits(6, 1, 1, 3, 2, 2, 7));
    test(rt, pad_line::lane_fits(6, 1, 1, 3, 2, 2, 6));
    test(rt, pad_line::lane_fits(6, 1, 2, 3, 2, 2, 7));
}

// Lane 1 of the rows 4 5 6 / 1 2 3; a lane that is refused leaves the line as it was.
fn padded_by(rt: &impl Print, left: usize) {
    let mut padded = [9i64; 8];
    let mirror = BorderMode::Mirror;
    pad_line::pad_lane(&[4, 5, 6, 1, 2, 3], 1, 1, 3, mirror, left, 2, &mut padded);
    levels(rt, &padded);
}

pub(crate) fn lines(rt: &impl Print) {
    padded_by(rt, 2);
    padded_by(rt, 3);
}

fn two_windows(rt: &impl Print, cells: &[i64]) {
    levels(rt, window::window(cells, 1, 2));
    levels(rt, window::window(cells, 4, 2));
}

fn two_windows_f64(rt: &impl Print, cells: &[f64]) {
    line(rt, window::window_f64(cells, 1, 2).len());
    line(rt, window::window_f64(cells, 4, 2).len());
}

pub(crate) fn windows(rt: &impl Print) {
    two_windows(rt, &[7, 1, 2, 3, 7]);
    two_windows_f64(rt, &[7.0, 1.0, 2.0, 3.0, 7.0]);
}
