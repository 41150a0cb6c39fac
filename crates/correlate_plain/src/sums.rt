// The sum of a list of cells: of a window, which is a part of its line, or of all weights.
ghost use Rattle.std.specs.Prelude.{◌≡◌};
ghost use Rattle.numbers.specs.Sums.{sum_of};
ghost use Rattle.correlate_spec.specs.Sizes.{SumNeeds};

// The sum of the cells.
pub fn sum_of(cells: &[i64]) -> i64
    requires { SumNeeds cells.now }
    ensures { result ≡ sum_of cells.now }
{
    let mut sum = 0;
    for z in cells {
        sum += *z;
    }
    sum
}
