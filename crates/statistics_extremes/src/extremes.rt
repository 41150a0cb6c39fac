// The least and the greatest level of a line.
ghost use Rattle.std.specs.Prelude.{◌≡◌, drop};
ghost use Rattle.std.specs.Int.Signed.{le_z};
ghost use Rattle.numbers.specs.Order.{at_least, extreme_from};
ghost use Rattle.statistics_spec.specs.Statistics.{minimum_of, maximum_of};

// The least of `first` and the levels from place `from` on.
fn least_from(line: &[i64], from: usize, first: i64) -> i64
    ensures { result ≡ extreme_from le_z first (drop from line.now) }
{
    let mut least = first;
    for i in from..line.len() {
        least = least.min(line[i]);
    }
    least
}

// The least level of a line.
//
// * `line` - the levels, any number of them.
//
// Of no level it is 0. Of 4 2 7 1 it is 1.
pub fn minimum(line: &[i64]) -> i64
    ensures { result ≡ minimum_of line.now }
{
    let n = line.len();
    if n == 0 {
        return 0;
    }
    // Four levels a turn, each to a running value of its own, so that none waits for the one before it. A `while`, since
    // `i` goes on to the levels that are left.
    let mut a = line[0];
    let mut b = a;
    let mut c = a;
    let mut d = a;
    let mut i = 1;
    while i + 3 < n {
        a = a.min(line[i]);
        b = b.min(line[i + 1]);
        c = c.min(line[i + 2]);
        d = d.min(line[i + 3]);
        i += 4;
    }
    least_from(line, i, a.min(b).min(c.min(d)))
}

// The greatest of `first` and the levels from place `from` on.
fn greatest_from(line: &[i64], from: usize, first: i64) -> i64
    ensures { result ≡ extreme_from at_least first (drop from line.now) }
{
    let mut greatest = first;
    for i in from..line.len() {
        greatest = greatest.max(line[i]);
    }
    greatest
}

// The greatest level of a line.
//
// * `line` - the levels, any number of them.
//
// Of no level it is 0. Of 4 2 7 1 it is 7.
pub fn maximum(line: &[i64]) -> i64
    ensures { result ≡ maximum_of line.now }
{
    let n = line.len();
    if n == 0 {
        return 0;
    }
    let mut a = line[0];
    let mut b = a;
    let mut c = a;
    let mut d = a;
    // A `while`, since `i` goes on to the levels that are left.
    let mut i = 1;
    while i + 3 < n {
        a = a.max(line[i]);
        b = b.max(line[i + 1]);
        c = c.max(line[i + 2]);
        d = d.max(line[i + 3]);
        i += 4;
    }
    greatest_from(line, i, a.max(b).max(c.max(d)))
}
