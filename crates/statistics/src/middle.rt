// The middle level of a line that is served, found without sorting: by counts over a copy of the line at 32 bits, of
// which the machine compares four levels at a time.
ghost use Rattle.std.specs.Prelude.{◌≡◌, false, cond, ◌+◌, ◌≤◌, ◌<◌, pos, nat_abs, ◌+ℤ◌, ◌-ℤ◌, length, ◌≤ℤ◌};
ghost use Rattle.std.specs.Int.Signed.{le_z};
ghost use Rattle.numbers.specs.Limits.{largest_level, longest_axis};
ghost use Rattle.statistics_spec.specs.Sorting.{at_most, past, least_above};
ghost use Rattle.statistics_spec.specs.Statistics.{minimum_of, maximum_of, median_of, ranked, unserved};

// Copies the line. A level that is served fits 32 bits.
fn narrow(line: &[i64], levels: &mut [i32])
    requires line_value { unserved line.now ≡ false }
    requires levels_len { length levels.old ≡ length line.now }
    ensures { levels.new ≡ line.now }
{
    for k in 0..line.len() {
        levels[k] = line[k] as i32;
    }
}

// How many levels are at most z.
fn count_at_most(levels: &[i32], z: i32) -> u32
    requires { length levels.now ≤ longest_axis }
    ensures { result ≡ at_most le_z z levels.now }
{
    let mut count: u32 = 0;
    for x in levels {
        if *x <= z {
            count += 1;
        }
    }
    count
}

// How far level `high` is above level `low`: below 2^32.
fn distance(low: i64, high: i64) -> usize
    requires low_bound { nat_abs low ≤ largest_level }
    requires high_bound { nat_abs high ≤ largest_level }
    requires low_le_high { low ≤ℤ high }
    ensures { result ≡ nat_abs (high -ℤ low) }
{
    (high - low) as usize
}

// The level `offset` above `low`.
fn above(low: i64, offset: usize) -> i32
    requires low_bound { nat_abs low ≤ largest_level }
    requires offset_bound { offset ≤ 4294967294 }
    requires offset_bound_2 { nat_abs (low +ℤ pos offset) ≤ largest_level }
    ensures { result ≡ low +ℤ pos offset }
{
    (low + offset as i64) as i32
}

// The level at place k of the sorted line, found without sorting: the least one with more than k levels at or below it.
// It is bisected between the least level of the line and the greatest, by `from` and `to`, offsets from the least.
// Where k levels are at most the one that is tried, it is the least above that: on levels that differ much this comes
// after about as many turns as halve the line, not the range of its levels.
fn level_of_rank(levels: &[i32], low: i64, high: i64, k: usize) -> i32
    requires levels_value { unserved levels.now ≡ false }
    requires low_value { low ≡ minimum_of levels.now }
    requires high_value { high ≡ maximum_of levels.now }
    requires k_in_bounds { k < length levels.now }
    ensures { result ≡ ranked levels.now k }
{
    let mut from = 0;
    let mut to = distance(low, high);
    // A `while`: a bisection has no index to count.
    while from < to {
        let middle = from + (to - from) / 2;
        let z = above(low, middle);
        let count = count_at_most(levels, z) as usize;
        if k < count {
            to = middle;
        } else if count == k {
            return least_above(levels, z, high as i32);
        } else {
            from = middle + 1;
        }
    }
    above(low, from)
}

// The lesser of `least` and a level where it is above z, else of `least` and `top`.
fn nearer(least: i32, level: i32, z: i32, top: i32) -> i32
    ensures { result ≡ cond (le_z least (past le_z z top level)) least (past le_z z top level) }
{
    let y = if level <= z { top } else { level };
    least.min(y)
}

// The least level above z; `top` where there is none below it.
fn least_above(levels: &[i32], z: i32, top: i32) -> i32
    ensures { result ≡ least_above le_z z top levels.now }
{
    let mut least = top;
    for x in levels {
        least = nearer(least, *x, z, top);
    }
    least
}

// The level at place k + 1 of the sorted line, from the one at place k: that one again where more than k + 1 levels are
// at most it, else the least above it.
fn level_after(levels: &[i32], lower: i32, high: i64, k: usize) -> i32
    requires levels_value { unserved levels.now ≡ false }
    requires k_in_bounds { k + 1 < length levels.now }
    requires lower_value { lower ≡ ranked levels.now k }
    requires high_value { high ≡ maximum_of levels.now }
    ensures { result ≡ ranked levels.now (k + 1) }
{
    if k + 1 < count_at_most(levels, lower) as usize {
        return lower;
    }
    least_above(levels, lower, high as i32)
}

// The middle level of the sorted line; of an even number of levels the two middle levels' sum over 2, cut toward zero.
fn middle_level(levels: &[i32], low: i64, high: i64) -> i64
    requires levels_value { unserved levels.now ≡ false }
    requires low_value { low ≡ minimum_of levels.now }
    requires high_value { high ≡ maximum_of levels.now }
    requires levels_nonzero { 0 < length levels.now }
    ensures { result ≡ median_of levels.now }
{
    let n = levels.len();
    let h = (n - 1) / 2;
    let lower = level_of_rank(levels, low, high, h);
    if n % 2 == 1 {
        return lower as i64;
    }
    let upper = level_after(levels, lower, high, h);
    (lower as i64 + upper as i64) / 2
}

// The median of the line, which is copied into `levels`.
fn median_in(line: &[i64], levels: &mut [i32]) -> i64
    requires line_value { unserved line.now ≡ false }
    requires line_nonzero { 0 < length line.now }
    requires levels_len { length levels.old ≡ length line.now }
    ensures { result ≡ median_of line.now }
{
    narrow(line, levels);
    let low = statistics_extremes::minimum(line);
    let high = statistics_extremes::maximum(line);
    middle_level(levels, low, high)
}

// The median of at most 128 levels: to clear the room of a longer line would cost more than such a line itself.
pub(crate) fn of_few(line: &[i64]) -> i64
    requires line_value { unserved line.now ≡ false }
    requires line_nonzero { 0 < length line.now }
    requires line_len_bound { length line.now ≤ 128 }
    ensures { result ≡ median_of line.now }
{
    let mut room = [0i32; 128];
    let n = line.len();
    median_in(line, &mut room[..n])
}

// The median of any line that is served.
pub(crate) fn of_many(line: &[i64]) -> i64
    requires line_value { unserved line.now ≡ false }
    requires line_nonzero { 0 < length line.now }
    ensures { result ≡ median_of line.now }
{
    let mut room = [0i32; numbers::LONGEST_AXIS];
    let n = line.len();
    median_in(line, &mut room[..n])
}
