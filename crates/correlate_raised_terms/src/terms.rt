// Cells, weights and terms that are raised above zero: a product is one multiply of numbers below 2^32. The way through
// 32 bits lets the compiler see that the upper half is 0. A line's cells are raised once, in place, and not for every
// weight.
ghost use Rattle.std.specs.Prelude.{◌≡◌, ◌+◌, ◌*◌, ◌^◌, ◌≤◌, ◌<◌, pos, length};
ghost use Rattle.numbers.specs.Limits.{largest_weight};
ghost use Rattle.numbers.specs.Lists.{Every};
ghost use Rattle.direction.specs.Direction.{directed};
ghost use Rattle.correlate_raised_terms.specs.Narrow.{Raised, Narrow};
ghost use Rattle.correlate_raised_terms.specs.Products.{lowered, RaisedWeight, product, four_products};

// Four raised weights.
#[derive(Clone, Copy)]
pub struct Four {
    pub w0: u64,
    pub w1: u64,
    pub w2: u64,
    pub w3: u64,
}

// Weight j in the direction, raised.
pub fn raised_weight(weights: &[i64], backward: bool, by: u32, j: usize) -> u64
    requires { Every (Raised by 131070) weights.now × (by ≤ largest_weight) × (j < length weights.now) }
    ensures { RaisedWeight by (directed backward weights.now) j result }
{
    ((direction::weight_at(weights, backward, j) + by as i64) as u32) as u64
}

// Weights j to j + 3 in the direction, raised.
fn four_toward(weights: &[i64], backward: bool, by: u32, j: usize) -> Four
    requires { Every (Raised by 131070) weights.now × (by ≤ largest_weight) × (j + 4 ≤ length weights.now) }
    ensures { RaisedWeight by (directed backward weights.now) j result.w0
        × RaisedWeight by (directed backward weights.now) (j + 1) result.w1
        × RaisedWeight by (directed backward weights.now) (j + 2) result.w2
        × RaisedWeight by (directed backward weights.now) (j + 3) result.w3 }
{
    let w0 = raised_weight(weights, backward, by, j);
    let w1 = raised_weight(weights, backward, by, j + 1);
    let w2 = raised_weight(weights, backward, by, j + 2);
    let w3 = raised_weight(weights, backward, by, j + 3);
    Four { w0, w1, w2, w3 }
}

// As four_toward, the direction asked once for the four. Where it is asked for each, the compiler chooses an address
// for every weight of every pass, which short lanes pay for.
pub fn raised_four(weights: &[i64], backward: bool, by: u32, j: usize) -> Four
    requires { Every (Raised by 131070) weights.now × (by ≤ largest_weight) × (j + 4 ≤ length weights.now) }
    ensures { RaisedWeight by (directed backward weights.now) j result.w0
        × RaisedWeight by (directed backward weights.now) (j + 1) result.w1
        × RaisedWeight by (directed backward weights.now) (j + 2) result.w2
        × RaisedWeight by (directed backward weights.now) (j + 3) result.w3 }
{
    if backward {
        return four_toward(weights, true, by, j);
    }
    four_toward(weights, false, by, j)
}

// Raises every cell of a line by 2^31.
pub fn raise_cells(line: &mut [i64])
    requires { Narrow line.old }
    ensures { lowered line.new ≡ line.old }
{
    for cell in line.iter_mut() {
        *cell += 2147483648;
    }
}

// The raised cell at a place times a raised weight.
pub fn raised_term(line: &[i64], at: usize, weight: u64) -> u64
    requires { Narrow (lowered line.now) × (at < length line.now) × (weight ≤ 131070) }
    ensures { (pos result ≡ product (lowered line.now) at weight) × (result ≤ 2 ^ 38 * largest_weight) }
{
    (line[at] as u32) as u64 * weight
}

// The raised cells at four neighbouring places, each times its raised weight, in one sum.
pub fn four_terms(line: &[i64], at: usize, four: Four) -> u64
    requires { Narrow (lowered line.now) × (at + 4 ≤ length line.now) × (four.w0 ≤ 131070) × (four.w1 ≤ 131070)
        × (four.w2 ≤ 131070) × (four.w3 ≤ 131070) }
    ensures { (pos result ≡ four_products (lowered line.now) at four.w0 four.w1 four.w2 four.w3)
        × (result ≤ 4 * (2 ^ 38 * largest_weight)) }
{
    let t0 = raised_term(line, at, four.w0);
    let t1 = raised_term(line, at + 1, four.w1);
    let t2 = raised_term(line, at + 2, four.w2);
    let t3 = raised_term(line, at + 3, four.w3);
    t0 + t1 + t2 + t3
}
