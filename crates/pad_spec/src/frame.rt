// The frame of a padded grid: the pad before each axis, and the padded shape.
ghost use Rattle.std.specs.Prelude.{◌≡◌, false, length, take};
ghost use Rattle.numbers.specs.Lists.{any_of};
ghost use Rattle.array_spec.specs.Conditions.{bad_shape};
ghost use Rattle.pad_spec.specs.Conditions.{bad_count, over_pad};
ghost use Rattle.pad_spec.specs.Pads.{lefts_of, rights_of, padded_shape};

use crate::pairs::Pair;

// Sets the pad before each axis and the padded length of each axis of an accepted shape whose pads are at most 64.
//
// * `shape` - the length of each axis.
// * `pads`, `count` - the pairs of pads, and how many of them count: one for all axes, or one for each.
// * `lefts`, `padded` - what is set, as long as the shape.
//
// Supposes what it is handed. Of 2 3 with the pairs 1 1 and 2 0 that both count: lefts 1 2, padded 4 5.
pub fn set_frame(
    shape: &[usize],
    pads: [Pair; 3],
    count: usize,
    lefts: &mut [usize],
    padded: &mut [usize],
)
    requires { (bad_shape shape.now ≡ false) × (bad_count shape.now count ≡ false)
        × (any_of over_pad (take count pads) ≡ false) × (length lefts.old ≡ length shape.now)
        × (length padded.old ≡ length shape.now) }
    ensures { (lefts.new ≡ lefts_of shape.now pads count)
        × (padded.new ≡ padded_shape shape.now (lefts_of shape.now pads count)
        (rights_of shape.now pads count)) }
{
    for a in 0..shape.len() {
        let p = crate::pairs::pair_of(pads, count, a);
        lefts[a] = p.left;
        padded[a] = p.left + array::len_of(shape, a) + p.right;
    }
}
