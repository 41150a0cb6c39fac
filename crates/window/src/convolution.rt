// The origin as a convolution applies it, and condition 11 of the pads that it gives.
ghost use Rattle.std.specs.Prelude.{◌≡◌, false};
ghost use Rattle.border.specs.Modes.{border_of};
ghost use Rattle.window_spec.specs.Origin.{bad_origin};
ghost use Rattle.window_spec.specs.Window.{bad_window_origin, bad_reach, bad_kernel_reach, applied_origin};

use border::BorderMode;
use window_spec::Origin;

// The origin of len weights as it is applied: the caller's, or, where convolution says convolution, negated and for an
// even count 1 less. Only of an origin that condition 7 accepts: -2^63 has no negation. applied_origin(3, 1, true) is
// -1, applied_origin(4, 1, true) is -2, applied_origin(4, 1, false) is 1.
pub fn applied_origin(len: usize, origin: isize, convolution: bool) -> isize
    requires { bad_origin len origin ≡ false }
    ensures { result ≡ applied_origin convolution len origin }
{
    if convolution {
        if len % 2 == 0 {
            return -origin - 1;
        }
        return -origin;
    }
    origin
}

// Condition 11 of a lane of n cells under len weights whose origin condition 7 accepts, by the origin as it is applied.
// Of two cells Wrap fills the pads of 4 weights with origin 0, and not of 6.
pub fn bad_applied_reach(
    mode: BorderMode,
    n: usize,
    len: usize,
    origin: isize,
    convolution: bool,
) -> bool
    requires { bad_window_origin len origin ≡ false }
    ensures { result ≡ bad_reach (border_of mode) len (applied_origin convolution len origin) n }
{
    if len == 1 {
        return false;
    }
    crate::conditions::bad_reach(mode, n, len, applied_origin(len, origin, convolution))
}

// Condition 11 of a grid kernel whose origin condition 7 accepts, by the origin as it is applied: the pads as they are
// laid, on every axis. One cell under Wrap with a side of 2 and origin 0 has it where convolution says convolution, and
// not else.
pub fn bad_kernel_reach(
    mode: BorderMode,
    shape: &[usize],
    side: usize,
    origin: isize,
    convolution: bool,
) -> bool
    requires { bad_origin side origin ≡ false }
    ensures { result ≡ bad_kernel_reach (border_of mode) side (applied_origin convolution side origin)
        shape.now }
{
    let applied = applied_origin(side, origin, convolution);
    match crate::origin::kernel_origin_check(side, applied) {
        Origin::Refused => false,
        Origin::Pads(left, right) => {
            crate::conditions::bad_pads_any([mode, mode, mode], left, right, shape)
        }
    }
}
