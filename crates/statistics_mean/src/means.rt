// The mean of a line's levels, and which lines it and the median serve.
ghost use Rattle.std.specs.Prelude.{◌≡◌, ◌≤◌, false, length};
ghost use Rattle.numbers.specs.Sums.{sum_of};
ghost use Rattle.statistics_spec.specs.Statistics.{mean_of, unserved, answered};
ghost use Rattle.statistics_mean.specs.NearSum.{NearSum};

// How many cells a line may have that mean and median serve.
const MOST_CELLS: usize = 1024;

// Whether mean and median do not serve the line: over 1,024 cells, or a level outside -(2^31 - 1)..2^31 - 1.
//
// * `line` - the levels, any number of them.
//
// Of 2147483648 alone it is true, of 2147483647 false.
pub fn not_served(line: &[i64]) -> bool
    ensures { result ≡ unserved line.now }
{
    MOST_CELLS < line.len() || array::any_outside(line)
}

// The sum of the levels, which stays below 2^41 in size.
fn sum(line: &[i64]) -> i64
    requires { unserved line.now ≡ false }
    ensures { result ≡ sum_of line.now }
{
    let mut sum = 0;
    for z in line {
        sum += *z;
    }
    sum
}

// The levels of a line, each with 2^30 added: their bits joined, and their sum modulo 2^64.
#[derive(Clone, Copy)]
struct Lifts {
    bits: u64,
    sum: u64,
}

// Lifts the levels, in one pass with no early return, of which the compiler makes vector code.
fn lift_all(line: &[i64]) -> Lifts
    requires { length line.now ≤ 1024 }
    ensures { result.bits ≤ 2147483647 → NearSum line.now result.sum }
{
    let mut bits: u64 = 0;
    let mut sum: u64 = 0;
    for z in line {
        let w = array::lifted(*z);
        bits |= w;
        sum = sum.wrapping_add(w);
    }
    Lifts { bits, sum }
}

// The sum of the levels, 0 of a line that is not served. Most lines have no level of 2^30 or more in size: there the
// lifted sum less what was added is the sum.
fn total(line: &[i64]) -> i64
    requires { length line.now ≤ 1024 }
    ensures { result ≡ answered sum_of line.now }
{
    let lifts = lift_all(line);
    let bits = lifts.bits;
    if bits <= 2147483647 {
        let lifted = lifts.sum;
        return lifted as i64 - (line.len() * 1073741824) as i64;
    }
    if array::any_over(line) {
        return 0;
    }
    sum(line)
}

// The sum of the levels over their number, cut toward zero.
//
// * `line` - up to 1,024 levels in -(2^31 - 1)..2^31 - 1.
//
// Of any other line, and of no level, it is 0. Of -1 -2 it is -1.
pub fn mean(line: &[i64]) -> i64
    ensures { result ≡ answered mean_of line.now }
{
    let n = line.len();
    if n == 0 {
        return 0;
    }
    if MOST_CELLS < n {
        return 0;
    }
    total(line) / (n as i64)
}
