// What the program `play` prints for other files and texts, by the same library calls; `stdout` beside src/ has what
// they must be, with an empty line after each. The theorems about files and texts are called here, so that none can be
// dropped unnoticed.
#![tactic(auto)]

use grid_text_spec::TextState;
use std::io::Print;

// The state after a text that is fed in two parts, and one line feed more.
fn read_text(text: &[u8], cut: usize, lengths: &mut [usize], levels: &mut [i64]) -> TextState {
    let at = cut.min(text.len());
    let start = grid_text::start();
    let half = grid_text::feed(start, &text[..at], lengths, levels);
    let whole = grid_text::feed(half, &text[at..], lengths, levels);
    grid_text::feed(whole, b"\n", lengths, levels)
}

// Writes the first bytes of what is printed, and an empty line.
fn show(rt: &impl Print, printed: &[u8], n: usize) {
    if n > printed.len() {
        return;
    }
    let _ = rt.write_all(&printed[..n]);
    examples_print::end(rt);
}

// What is printed of a file and of a text that is cut in two.
fn case(rt: &impl Print, file: &[u8], text: &[u8], cut: usize) {
    let mut lengths = [0usize; 3];
    let mut levels = [0i64; 8192];
    let mut out = [0i64; 8192];
    let mut second = [0i64; 8192];
    let mut printed = [0u8; 172032];
    let state = read_text(text, cut, &mut lengths, &mut levels);
    let n = play_text::respond(
        file,
        state,
        &lengths,
        &levels,
        &mut out,
        &mut second,
        &mut printed,
    );
    show(rt, &printed, n);
}

// A text over document 02's step: the minimum along axis 0 of windows of 2 cells under nearest.
fn least(rt: &impl Print, text: &[u8], cut: usize) {
    case(
        rt,
        b"LKS\x00\x01\x01\x00\x00\x02\x00\x02\x00\x00",
        text,
        cut,
    );
}

// The example, whole and cut in its numbers and gaps; without a line feed at its end, with one and with several.
fn examples(rt: &impl Print) {
    least(rt, b"1 3 4 2 7", 0);
    least(rt, b"1 3 4 2 7\n", 1);
    least(rt, b"\n\n 1\n3   4\n2 7 \n\n", 6);
    least(rt, b"1 3 40 -20 70", 9);
    least(rt, b"1 3 40 -20 70", 8);
}

// 1: a count, a length or a product of the lengths.
fn shapes(rt: &impl Print) {
    least(rt, b"0", 0);
    least(rt, b"4 1 1 1 1 5", 3);
    least(rt, b"-0", 1);
    least(rt, b"9 x", 2);
    least(rt, b"1 0", 2);
    least(rt, b"1 1025", 4);
    least(rt, b"2 1024 9 5", 6);
    least(rt, b"2 x 5000", 3);
    least(rt, b"1000000000000000000000000000001", 20);
}

// 2: empty text, too few levels and too many, words that are no numbers.
fn texts(rt: &impl Print) {
    least(rt, b"", 0);
    least(rt, b" \n", 1);
    least(rt, b"1 2 5", 4);
    least(rt, b"1 1 5 6", 5);
    least(rt, b"3 1024 1024", 5);
    least(rt, b"1\t1 5", 2);
    least(rt, b"1 1 5\r\n", 5);
    least(rt, b"1 1 5\x00", 5);
    least(rt, b"1 1 +5", 5);
    least(rt, b"1 1 -", 5);
    least(rt, b"1 1 --5", 5);
    least(rt, b"1 1 5-", 5);
}

// Levels: zeros before, 18 digits and 19, minus zero, both ends of the range, and 3 one past each.
fn levels(rt: &impl Print) {
    least(rt, b"1 1 000000000000000007", 10);
    least(rt, b"1 1 0000000000000000007", 10);
    least(rt, b"1 1 -000000000000000007", 10);
    least(rt, b"1 2 -0 0", 5);
    least(rt, b"1 2 2147483647 -2147483647", 12);
    least(rt, b"1 1 2147483648", 7);
    least(rt, b"1 1 -2147483648", 7);
    least(rt, b"1 1 999999999999999999", 7);
}

// 13, 14 and 15 of a file, whatever the text is.
fn files(rt: &impl Print) {
    case(rt, b"", b"9", 0);
    case(rt, b"LKS\x00\x01", b"1 3 4 2 7", 0);
    case(
        rt,
        b"LKT\x00\x01\x01\x00\x00\x02\x00\x02\x00\x00",
        b"1 3 4 2 7",
        0,
    );
    case(
        rt,
        b"LKS\x01\x00\x01\x00\x00\x02\x00\x02\x00\x00",
        b"1 3 4 2 7",
        0,
    );
    case(rt, b"LKS\x00\x01\x00", b"9", 0);
    case(
        rt,
        b"LKS\x00\x01\x01\x00\x00\x02\x00\x02\x00",
        b"1 3 4 2 7",
        0,
    );
    case(
        rt,
        b"LKS\x00\x01\x01\x00\x00\x02\x00\x02\x00\x00\x00",
        b"1 3 4 2 7",
        0,
    );
    case(rt, b"LKS\x00\x01\x01\x03\x00\x02\x00\x02\x00\x00", b"9", 0);
    case(rt, b"LKS\x00\x01\x01\x00\x00\x02\x00\x05\x00\x00", b"", 0);
    case(
        rt,
        b"LKS\x00\x01\x01\x00\x00\x02\x00\x02\x00\x01",
        b"1 3 4 2 7",
        0,
    );
    case(
        rt,
        b"LKS\x00\x01\x01\x02\x00\x02\x01\x02\x00\x00",
        b"1 3 4 2 7",
        0,
    );
}

// The mark of 16 steps: 118 bytes give the number of the first step, whose length is 0; a longer file gives 14.
fn long_files(rt: &impl Print) {
    let mut file = [0u8; 200];
    file[0] = 76;
    file[1] = 75;
    file[2] = 83;
    file[4] = 1;
    file[5] = 16;
    case(rt, &file[..118], b"1 3 4 2 7", 0);
    case(rt, &file[..119], b"1 3 4 2 7", 0);
    case(rt, &file, b"1 3 4 2 7", 0);
}

// T4's minimum and maximum, T5's two steps, and a second step that is refused.
fn recipes(rt: &impl Print) {
    case(
        rt,
        b"LKS\x00\x01\x01\x00\x00\x03\x00\x03\x00\x00",
        b"1 4 4 2 7 1",
        5,
    );
    case(
        rt,
        b"LKS\x00\x01\x01\x01\x00\x03\x00\x03\x00\x00",
        b"1 4 4 2 7 1",
        5,
    );
    case(
        rt,
        b"LKS\x00\x01\x02\x00\x00\x02\x00\x00\x00\x00\x00\x01\x02\x00\x00\x00\x00",
        b"2 2 2\n5 3\n4 9\n",
        5,
    );
    case(
        rt,
        b"LKS\x00\x01\x02\x00\x00\x02\x00\x02\x00\x00\x00\x01\x02\x00\x02\x00\x00",
        b"1 3 4 2 7",
        5,
    );
    case(
        rt,
        b"LKS\x00\x01\x02\x00\x00\x02\x00\x02\x00\x00\x00\x00\x42\x00\x02\x00\x00",
        b"1 3 4 2 7",
        5,
    );
}

// The first four levels of a grid.
fn first_four(rt: &impl Print, levels: &[i64; 8192]) {
    examples_print::levels(rt, &[levels[0], levels[1], levels[2], levels[3]]);
}

// The levels that a call leaves and the bytes that lines take, as the comments of the calls say.
fn calls(rt: &impl Print) {
    let mut lengths = [0usize; 3];
    let mut levels = [0i64; 8192];
    let mut out = [9i64; 8192];
    let mut second = [9i64; 8192];
    let state = read_text(b"1 3 4 2 7", 4, &mut lengths, &mut levels);
    let answer = play_text::answer(
        b"LKS\x00\x01\x01\x00\x00\x02\x00\x02\x00\x00",
        state,
        &lengths,
        &levels,
        &mut out,
        &mut second,
    );
    examples_print::answer(rt, answer);
    first_four(rt, &out);
    first_four(rt, &second);
    let mut text = [0u8; 42];
    examples_print::line(rt, grid_text::write_lines(&[-7, 12], &mut text));
    show(rt, &text, 6);
    let mut short = [0u8; 41];
    examples_print::line(rt, grid_text::write_lines(&[-7, 12], &mut short));
}

fn main(rt: HostRuntime) {
    play_text::rows();
    play_text::first_bytes();
    examples(&rt);
    shapes(&rt);
    texts(&rt);
    levels(&rt);
    files(&rt);
    long_files(&rt);
    recipes(&rt);
    calls(&rt);
}
