// Numbers on standard output, for the programs of examples. Nothing is promised of what is written: the logic does not
// speak of it, as `io` does not; the file `stdout` of each program holds it. Nothing here is refused.
#![tactic(auto)]

use numbers::Refusal;
use std::io::Print;

// Writes a space.
pub fn space(rt: &impl Print) {
    let _ = rt.write_all(b" ");
}

// Ends the line.
pub fn end(rt: &impl Print) {
    let _ = rt.write_all(b"\n");
}

// Writes n in decimal: 12 as 12.
pub fn number(rt: &impl Print, n: usize) {
    let _ = print!(rt; "{}", n as u64);
}

// Writes n and ends the line.
pub fn line(rt: &impl Print, n: usize) {
    number(rt, n);
    end(rt);
}

// Writes the number of an answer as a line: 0 where it was accepted.
pub fn answer(rt: &impl Print, answer: Result<(), Refusal>) {
    line(rt, usize::from(numbers::answer_number(answer)));
}

// Writes a line: 1 for yes, 0 for no.
pub fn test(rt: &impl Print, answer: bool) {
    line(rt, usize::from(answer));
}

// Writes a level in decimal: −2 as -2.
fn level(rt: &impl Print, z: i64) {
    if z < 0 {
        let _ = rt.write_all(b"-");
        let m = -(z + 1);
        let _ = print!(rt; "{}", m as u64 + 1);
        return;
    }
    let _ = print!(rt; "{}", z as u64);
}

// Writes a level and ends the line.
pub fn level_line(rt: &impl Print, z: i64) {
    level(rt, z);
    end(rt);
}

// Writes the levels on one line, each with a space after it: 4 2 7 1.
pub fn levels(rt: &impl Print, cells: &[i64]) {
    for z in cells {
        level(rt, *z);
        space(rt);
    }
    end(rt);
}

// Writes a mask on one line, 1 for true and 0 for false, each with a space after it: 1 0 1.
fn marks(rt: &impl Print, cells: &[bool]) {
    for cell in cells {
        number(rt, usize::from(*cell));
        space(rt);
    }
    end(rt);
}
