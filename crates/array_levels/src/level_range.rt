// Whether a line has a level outside -(2^31 - 1)..2^31 - 1: condition 3 of whole levels, and which lines mean and
// median serve.
//
// No loop here has an early return, so that each is compiled to vector code. Most lines have no level of 2^30 or more
// in size; that is seen with one addition a level, of which the compiler makes a plain one, and the sizes are looked at
// of the other lines only.
ghost use Rattle.std.specs.Prelude.{◌≡◌, ◌-◌, ◌^◌, ◌||◌, length, pos, ◌+ℤ◌, neg_ℤ};
ghost use Rattle.numbers.specs.Lists.{any_of};
ghost use Rattle.numbers.specs.Ranges.{outside_z};
ghost use Rattle.array_levels.specs.Near.{is_far, lift_of};

// A level with 2^30 added, modulo 2^64.
//
// * `z` - the level.
//
// A level in -2^30..2^30 - 1 becomes a number below 2^31, any other a greater one. Of -1 it is 1073741823, of -2^30 - 1
// it is 2^64 - 1.
pub fn lifted(z: i64) -> u64
    ensures { result ≡ lift_of z }
{
    z.wrapping_add(1073741824).cast_unsigned()
}

// Whether some level is outside -2^30..2^30 - 1: those inside are lifted to numbers below 2^31, and so are their bits
// joined.
fn far_in(line: &[i64]) -> bool
    ensures { result ≡ any_of is_far line.now }
{
    let mut bits = 0;
    for &z in line {
        bits |= lifted(z);
    }
    2147483647 < bits
}

// The same of two lines as long as each other, in one loop: it reads twice as much a turn, and is a third quicker than
// two.
fn far_in_two(line: &[i64], other: &[i64]) -> bool
    requires { length other.now ≡ length line.now }
    ensures { result ≡ any_of is_far line.now || any_of is_far other.now }
{
    let mut bits = 0;
    let mut more = 0;
    for i in 0..line.len() {
        let z = line[i];
        let y = other[i];
        bits |= lifted(z);
        more |= lifted(y);
    }
    2147483647 < bits || 2147483647 < more
}

// The same of a line: of its two halves, and of the level that is left of an odd number.
fn any_far(line: &[i64]) -> bool
    ensures { result ≡ any_of is_far line.now }
{
    let half = line.len() / 2;
    let e = half + half;
    far_in_two(&line[..half], &line[half..e]) || far_in(&line[e..])
}

// Whether some level is outside -(2^31 - 1)..2^31 - 1: the sizes' bits joined pass the limit where one size does. For a
// line that is known to have a level of 2^30 or more in size; of any other `any_outside` is quicker.
//
// * `line` - the levels, any number of them.
//
// Of 2147483648 alone it is true, of 2147483647 false, of no level false.
pub fn any_over(line: &[i64]) -> bool
    ensures { result ≡ any_of (outside_z (neg_ℤ (pos (2 ^ 31 - 1))) (pos (2 ^ 31 - 1))) line.now }
{
    let mut sizes = 0;
    for &z in line {
        sizes |= numbers::magnitude(z);
    }
    2147483647 < sizes
}

// Whether some level is outside -(2^31 - 1)..2^31 - 1.
//
// * `line` - the levels, any number of them.
//
// Of 2147483648 alone it is true, of 2147483647 false, of no level false.
pub fn any_outside(line: &[i64]) -> bool
    ensures { result ≡ any_of (outside_z (neg_ℤ (pos (2 ^ 31 - 1))) (pos (2 ^ 31 - 1))) line.now }
{
    any_far(line) && any_over(line)
}
