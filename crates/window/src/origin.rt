// The origin of a window: how far the window is moved back along the axis, and the pads that it then needs.
ghost use Rattle.std.specs.Prelude.{◌-◌, ◌/◌, ◌≤◌, ◌≡◌};
ghost use Rattle.window_spec.specs.Origin.{bad_origin, origin_pads, OriginAnswers};
ghost use Rattle.window.specs.Shift.{origin_of};

use window_spec::Origin;

// A signed number by its sign and size: On(k) is k, Back(k) is -(k + 1).
#[derive(Clone, Copy)]
enum Shift {
    On(usize),
    Back(usize),
}

// The sign and size of z, also of the least number, which has no negation.
fn split(z: isize) -> Shift
    ensures { origin_of result ≡ z }
{
    if z < 0 {
        let m = -(z + 1);
        return Shift::Back(m as usize);
    }
    Shift::On(z as usize)
}

// Whether a window of len cells refuses the origin.
fn refuses(len: usize, origin: Shift) -> bool
    ensures { result ≡ bad_origin len (origin_of origin) }
{
    if len == 0 {
        return true;
    }
    match origin {
        Shift::On(k) => (len - 1) / 2 < k,
        Shift::Back(k) => len / 2 <= k,
    }
}

// The pads of a window of len cells that the origin moves, len / 2 and right where the origin is 0.
fn pads(len: usize, right: usize, origin: Shift) -> Origin
    requires { ((len - 1) / 2 ≤ right) × (right ≤ len / 2) }
    ensures { result ≡ origin_pads len (len / 2) right (origin_of origin) }
{
    if refuses(len, origin) {
        return Origin::Refused;
    }
    let left = len / 2;
    match origin {
        Shift::On(k) => Origin::Pads(left + k, right - k),
        Shift::Back(k) => Origin::Pads(left - k - 1, right + k + 1),
    }
}

// Condition 7 by itself: whether a window of len cells refuses the origin. bad_origin(4, -2) is false, bad_origin(4, 2)
// is true; length 0 has no origin, so bad_origin(0, 0) is true.
pub fn bad_origin(len: usize, origin: isize) -> bool
    ensures { result ≡ bad_origin len origin }
{
    refuses(len, split(origin))
}

// The pads of a window of len cells along one axis, moved by the origin.
// Refuses with 7 an origin outside -floor(len / 2)..floor((len - 1) / 2). origin_check(4, -2) is Pads(0, 3).
pub fn origin_check(len: usize, origin: isize) -> Origin
    ensures { OriginAnswers len (len / 2) (len - len / 2 - 1) origin result }
{
    if len == 0 {
        return Origin::Refused;
    }
    pads(len, len - len / 2 - 1, split(origin))
}

// The pads on each axis of a grid kernel whose sides are all side cells long, moved by the origin.
// Refuses with 7 what origin_check refuses. kernel_origin_check(2, -1) is Pads(0, 2).
pub fn kernel_origin_check(side: usize, origin: isize) -> Origin
    ensures { OriginAnswers side (side / 2) (side / 2) origin result }
{
    pads(side, side / 2, split(origin))
}
