// A border for each axis: the axis's own of the three that a call takes, and condition 9 of each that counts.
ghost use Rattle.std.specs.Prelude.{◌≡◌};
ghost use Rattle.array_spec.specs.Conditions.{bad_level};
ghost use Rattle.border.specs.Axes.{mode_on, borders_of, bad_constants};

use crate::BorderMode;

// The border of an axis.
//
// * `modes` - the borders of axes 0, 1 and 2.
// * `axis` - the number of the axis; past 2 it has the third.
//
// Of Nearest, Mirror and Constant(5) axis 1 has Mirror.
pub fn mode_on(modes: [BorderMode; 3], axis: usize) -> BorderMode
    ensures { result ≡ mode_on modes axis }
{
    modes[axis.min(2)]
}

// Condition 9 of a grid call: whether the border of some axis carries a level that condition 3 would refuse.
//
// * `modes` - the borders of axes 0, 1 and 2; those past the axis count are not read.
// * `shape` - the length of each axis.
//
// Of Nearest, Constant(2147483648) and Wrap the shape 4 4 has it, and the shape 16 has not.
pub fn bad_constant_any(modes: [BorderMode; 3], shape: &[usize]) -> bool
    ensures { result ≡ bad_constants bad_level (borders_of modes) shape.now }
{
    for a in 0..shape.len() {
        let mode = mode_on(modes, a);
        if crate::constant::bad_constant(mode) {
            return true;
        }
    }
    false
}
