// The pads of each axis, which stand in two slices.
ghost use Rattle.std.specs.Prelude.{◌≡◌, get_or};
ghost use Rattle.codes_cells.specs.Cells.{pair_at, pairs_of};

use pad_spec::Pair;

// The number at a place, and 0 past the end. Of 5 6 place 1 has 6 and place 2 has 0.
fn at_or_zero(places: &[usize], i: usize) -> usize
    ensures { result ≡ get_or places.now i 0 }
{
    places.get(i).copied().unwrap_or(0)
}

// The pads at a place. Of the slices 1 and 2 3 place 1 has 0 and 3.
fn pair_at(lefts: &[usize], rights: &[usize], i: usize) -> Pair
    ensures { result ≡ pair_at lefts.now rights.now i }
{
    Pair {
        left: at_or_zero(lefts, i),
        right: at_or_zero(rights, i),
    }
}

// The three pairs of pads that the calls take.
pub fn pairs_of(lefts: &[usize], rights: &[usize]) -> [Pair; 3]
    ensures { result ≡ pairs_of lefts.now rights.now }
{
    [
        pair_at(lefts, rights, 0),
        pair_at(lefts, rights, 1),
        pair_at(lefts, rights, 2),
    ]
}
