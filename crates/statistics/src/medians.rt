// The median of a line's levels.

ghost use Rattle.std.specs.Prelude.{◌≡◌};
ghost use Rattle.statistics_spec.specs.Statistics.{median_of, answered};

// The middle level of the sorted line; of an even number of levels the two middle levels' sum over 2, cut toward zero.
//
// * `line` - up to 1,024 levels in -(2^31 - 1)..2^31 - 1.
//
// Of any other line, and of no level, it is 0. Of 1 2 4 9 it is 3, of -1 -2 it is -1.
pub fn median(line: &[i64]) -> i64
    ensures { result ≡ answered median_of line.now }
{
    let n = line.len();
    if n == 0 {
        return 0;
    }
    if statistics_mean::not_served(line) {
        return 0;
    }
    if n <= 128 {
        return crate::middle::of_few(line);
    }
    crate::middle::of_many(line)
}
