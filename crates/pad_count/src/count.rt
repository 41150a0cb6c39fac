// Condition 10 of `pad` and `pad_to`: how many pairs of pads there are, how long they are, and how many cells the
// padded grid has.
ghost use Rattle.std.specs.Prelude.{◌≡◌, false, ◌*◌, ◌≤◌, ◌<◌, length, take};
ghost use Rattle.numbers.specs.Limits.{longest_axis, longest_padded_axis};
ghost use Rattle.numbers.specs.Lists.{any_of};
ghost use Rattle.array_spec.specs.Conditions.{bad_shape};
ghost use Rattle.array_spec.specs.Grid.{length_of};
ghost use Rattle.pad_spec.specs.Conditions.{bad_count, over_pad, padded_count, bad_pads};
ghost use Rattle.pad_spec.specs.Pads.{pair_of, lefts_of, rights_of, padded_shape};

use pad_spec::{Pair, pair_of};

// Condition 10 of the count: neither 1 nor the axis count.
fn bad_count(shape: &[usize], count: usize) -> bool
    ensures { result ≡ bad_count shape.now count }
{
    count != 1 && count != shape.len()
}

// Condition 10 of one pair: a pad over 64.
fn over_pad(p: Pair) -> bool
    ensures { result ≡ over_pad p }
{
    numbers::LONGEST_PAD < p.left || numbers::LONGEST_PAD < p.right
}

// Condition 10 of the pairs that count: a pad over 64.
fn over_pads(pads: [Pair; 3], count: usize) -> bool
    ensures { result ≡ any_of over_pad (take count pads) }
{
    pads.iter().take(count).any(|p| over_pad(*p))
}

// The padded length of an axis whose pads are at most 64; a missing axis has length 1.
fn padded_len(shape: &[usize], pads: [Pair; 3], count: usize, axis: usize) -> usize
    requires { (length_of shape.now axis ≤ longest_axis)
        × (axis < length shape.now → over_pad (pair_of pads count axis) ≡ false) }
    ensures { result ≡ length_of (padded_shape shape.now (lefts_of shape.now pads count)
        (rights_of shape.now pads count)) axis }
{
    if shape.len() <= axis {
        return 1;
    }
    let p = pair_of(pads, count, axis);
    p.left + array::len_of(shape, axis) + p.right
}

// The number of padded cells of three padded lengths.
fn count_of_three(a: usize, b: usize, c: usize) -> usize
    requires { (a ≤ longest_padded_axis) × (b ≤ longest_padded_axis) × (c ≤ longest_padded_axis) }
    ensures { result ≡ a * (b * c) }
{
    a * (b * c)
}

// The number of padded cells of an accepted shape whose pads are at most 64.
fn padded_cells(shape: &[usize], pads: [Pair; 3], count: usize) -> usize
    requires { (bad_shape shape.now ≡ false) × (bad_count shape.now count ≡ false)
        × (any_of over_pad (take count pads) ≡ false) }
    ensures { result ≡ padded_count shape.now pads count }
{
    let a = padded_len(shape, pads, count, 0);
    let b = padded_len(shape, pads, count, 1);
    let c = padded_len(shape, pads, count, 2);
    count_of_three(a, b, c)
}

// Condition 10 of an accepted shape: a bad count, a pad over 64, over 32,768 padded cells, or an output of another
// length.
//
// * `shape` - the length of each axis; condition 1 accepts it.
// * `pads`, `count` - the pairs of pads, and how many of them count.
// * `out` - the length of the lent output.
//
// Of two cells with a pad of 1 on both sides it is false where the output has 4 cells, else true.
#[tactic(auto, unfolding(pad_spec::specs::Conditions::bad_pads))]
pub fn bad_pads(shape: &[usize], pads: [Pair; 3], count: usize, out: usize) -> bool
    requires { bad_shape shape.now ≡ false }
    ensures { result ≡ bad_pads shape.now pads count out }
{
    if bad_count(shape, count) || over_pads(pads, count) {
        return true;
    }
    let cells = padded_cells(shape, pads, count);
    numbers::MOST_PADDED_CELLS < cells || out != cells
}
