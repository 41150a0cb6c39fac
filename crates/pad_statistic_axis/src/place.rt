// Whether a place of a padded grid is in the middle, where the cells of the grid stand, on an axis and on every later
// one.
ghost use Rattle.std.specs.Prelude.{◌≡◌, ◌≤◌, ◌<◌, length};
ghost use Rattle.array_spec.specs.Grid.{cell_count, coordinate};
ghost use Rattle.pad_spec.specs.Pads.{in_middle, middle_from};
ghost use Rattle.pad_spec.specs.Frame.{Framed};

// Whether a place of the padded grid is in the middle on an axis.
fn on_middle(shape: &[usize], lefts: &[usize], padded: &[usize], axis: usize, place: usize) -> bool
    requires { Framed shape.now lefts.now padded.now × (place < cell_count padded.now)
        × (axis < length shape.now) }
    ensures { result ≡ in_middle shape.now lefts.now (coordinate padded.now place)
        axis }
{
    let q = place / lanes::stride_of(padded, axis) % array::len_of(padded, axis);
    let left = lefts[axis];
    left <= q && q < left + array::len_of(shape, axis)
}

// Whether a place of the padded grid is in the middle on every axis from `from` on.
//
// * `shape` - the length of each axis of the grid in the middle.
// * `lefts`, `padded` - the pad before each axis, and its padded length.
// * `from` - the first axis that is looked at.
// * `place` - a place of the padded grid.
//
// Supposes `Framed`. Of 2 3 in 4 by 5 from row 1 and column 2 on, place 4 from axis 1 on: true.
pub(crate) fn middle_from(
    shape: &[usize],
    lefts: &[usize],
    padded: &[usize],
    from: usize,
    place: usize,
) -> bool
    requires { Framed shape.now lefts.now padded.now × (place < cell_count padded.now)
        × (from ≤ length shape.now) }
    ensures { result ≡ middle_from shape.now lefts.now from
        (coordinate padded.now place) }
{
    for a in from..shape.len() {
        if !on_middle(shape, lefts, padded, a, place) {
            return false;
        }
    }
    true
}
