// The list of requests, with an example of each.
use crate::say;
use std::io::Print;

pub fn show_help(rt: &impl Print) {
    parts(rt);
    filters(rt);
    sums(rt);
    others(rt);
    recipes(rt);
}

// What the names stand for.
fn parts(rt: &impl Print) {
    say(
        rt,
        b"\
GRID = axes, lengths, number of levels, levels (last axis fastest); LIST = number, levels
BORDER = constant LEVEL, mirror, nearest, reflect or wrap; BORDERS = three, one for each axis
MODE = constant LEVEL, edge, maximum, mean, median, minimum, reflect, symmetric or wrap
PAIRS = number, left and right of each; OUT, SECOND = how many cells are lent
levels are whole, or with f 16 hexadecimal digits of the bits, or nan
FILE = the bytes of a recipe file, two hexadecimal digits each, or -
STEPS = number, then of each step: kind, axis, length, origin, border, constant
",
    );
}

fn filters(rt: &impl Print) {
    say(
        rt,
        b"\
correlate1d|convolve1d i|f GRID WEIGHTS:LIST AXIS BORDER ORIGIN OUT
    correlate1d i 1 3 3 1 2 3 3 1 2 3 0 nearest 0 3
    convolve1d i 1 3 3 1 2 3 3 1 2 3 0 constant 0 0 3
minimum_filter1d|maximum_filter1d GRID SIZE AXIS BORDER ORIGIN OUT
    minimum_filter1d 1 4 4 4 2 7 1 3 0 nearest 0 4
minimum_filter|maximum_filter GRID SIZE BORDERS ORIGIN OUT SECOND
    maximum_filter 2 2 3 6 1 2 3 4 5 6 3 reflect wrap nearest 0 6 6
",
    );
}

fn sums(rt: &impl Print) {
    say(
        rt,
        b"\
correlate|convolve GRID SIDES (number, sides) WEIGHTS:LIST BORDER ORIGIN OUT
    correlate 2 2 2 4 1 2 3 4 2 2 2 4 1 0 0 10 nearest 0 4
prewitt|sobel GRID AXIS BORDERS OUT SECOND
    sobel 2 2 2 4 1 2 3 4 0 nearest constant 5 wrap 4 4
uniform_filter1d GRID SIZE AXIS BORDER OUT
    uniform_filter1d 1 3 3 -1 -2 -4 3 0 constant 0 3
uniform_filter GRID SIZE BORDERS OUT SECOND
    uniform_filter 2 2 2 4 1 2 3 -6 2 nearest mirror constant 5 4 4
",
    );
}

fn others(rt: &impl Print) {
    say(
        rt,
        b"\
median_filter GRID OUT (levels 0 and 1, three axes)
    median_filter 3 2 2 2 8 1 0 1 0 0 1 0 1 8
pad GRID MODE PAIRS OUT
    pad 1 3 3 1 2 3 edge 1 2 2 7
pad_to GRID MODE PAIRS LIST (what the output holds before)
    pad_to 1 3 3 1 2 3 wrap 1 1 1 5 0 0 0 0 0
symmetry i|f WEIGHTS:LIST
    symmetry i 3 1 2 1
kernel3d star|ball|full
    kernel3d star
",
    );
}

fn recipes(rt: &impl Print) {
    say(
        rt,
        b"\
read_recipe FILE
    read_recipe 4c4b5300010100000200020000
write_recipe COUNT STEPS LENT (how many bytes are lent)
    write_recipe 1 1 0 0 2 0 2 0 13
play FILE GRID OUT SECOND
    play 4c4b5300010100000200020000 1 3 3 4 2 7 3 3
",
    );
}
