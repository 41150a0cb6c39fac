// Conditions 5, 7 and 11 of a window along an axis, and of one along every axis.
ghost use Rattle.std.specs.Prelude.{◌≡◌, false};
ghost use Rattle.border.specs.Axes.{borders_of, any_axis};
ghost use Rattle.border.specs.Modes.{border_of};
ghost use Rattle.window_spec.specs.Window.{bad_size, bad_window_origin, bad_either_pad, bad_reach};

use border::BorderMode;
use window_spec::Origin;

// Condition 5: the length of a window, or the count of weights, is outside 1..65. bad_size(65) is false, bad_size(66)
// is true.
pub fn bad_size(size: usize) -> bool
    ensures { result ≡ bad_size size }
{
    !(1..=numbers::LONGEST_WINDOW).contains(&size)
}

// Condition 7: a window of more than one cell refuses the origin.
// bad_window_origin(4, 2) is true, bad_window_origin(1, 99) is false.
pub fn bad_window_origin(size: usize, origin: isize) -> bool
    ensures { result ≡ bad_window_origin size origin }
{
    size != 1 && crate::origin::bad_origin(size, origin)
}

// Whether the border cannot fill one of two pads of a lane of n cells.
fn bad_pads(mode: BorderMode, left: usize, right: usize, n: usize) -> bool
    ensures { result ≡ bad_either_pad (border_of mode) left right n }
{
    border::bad_pad(mode, n, left) || border::bad_pad(mode, n, right)
}

// The same of the lanes of some axis, each with its own border.
pub(crate) fn bad_pads_any(
    modes: [BorderMode; 3],
    left: usize,
    right: usize,
    shape: &[usize],
) -> bool
    ensures { result ≡ any_axis (λ b. bad_either_pad b left right) (borders_of modes) shape.now }
{
    for a in 0..shape.len() {
        let mode = border::mode_on(modes, a);
        let n = shape[a];
        if bad_pads(mode, left, right, n) {
            return true;
        }
    }
    false
}

// Condition 11 of a lane of n cells: the border cannot fill one of the pads that a window needs, whose origin condition
// 7 accepts. Of three cells Mirror fills the pads of a window of 5 with origin 0, and not of 7.
pub fn bad_reach(mode: BorderMode, n: usize, size: usize, origin: isize) -> bool
    requires { bad_window_origin size origin ≡ false }
    ensures { result ≡ bad_reach (border_of mode) size origin n }
{
    if size == 1 {
        return false;
    }
    match crate::origin::origin_check(size, origin) {
        Origin::Refused => false,
        Origin::Pads(left, right) => bad_pads(mode, left, right, n),
    }
}

// Condition 11 of a grid: a lane of some axis has it, by the axis's own border. Of the shape 9 2 a window of 5 with
// origin 0 has it under Nearest and Mirror, and not under Mirror and Nearest.
pub fn bad_reach_any(modes: [BorderMode; 3], shape: &[usize], size: usize, origin: isize) -> bool
    requires { bad_window_origin size origin ≡ false }
    ensures { result ≡ any_axis (λ b. bad_reach b size origin) (borders_of modes) shape.now }
{
    if size == 1 {
        return false;
    }
    match crate::origin::origin_check(size, origin) {
        Origin::Refused => false,
        Origin::Pads(left, right) => bad_pads_any(modes, left, right, shape),
    }
}
