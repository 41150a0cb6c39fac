// The pads of an axis.
ghost use Rattle.std.specs.Prelude.{◌≡◌};
ghost use Rattle.pad_spec.specs.Pads.{pair_of};

// The pads of an axis: how many cells are padded before it and after it.
#[derive(Clone, Copy)]
pub struct Pair {
    pub left: usize,
    pub right: usize,
}

// The pair that serves an axis: the only one, or the axis's own; no pads past the third.
//
// * `pads`, `count` - the pairs, and how many of them count.
// * `axis` - the number of the axis.
//
// Of the pairs 1 2, 3 4 and 5 6 axis 1 has 1 2 where one counts, and 3 4 where two do.
pub fn pair_of(pads: [Pair; 3], count: usize, axis: usize) -> Pair
    ensures { result ≡ pair_of pads count axis }
{
    let place = if count == 1 { 0 } else { axis };
    if place < pads.len() {
        pads[place]
    } else {
        Pair { left: 0, right: 0 }
    }
}
