// One pass along an axis: an accepted call as the workers do it.
ghost use Rattle.std.specs.Prelude.{◌≡◌};
ghost use Rattle.min_max_spec.specs.Call.{number_of};
ghost use Rattle.min_max_spec.specs.Run.{answer_of};
ghost use Rattle.min_max_judge.specs.Judge.{call_of};
ghost use Rattle.min_max_axis.specs.Lane.{order_of};

use crate::each_lane::filter_axis;
use crate::extreme::Extreme;
use border::BorderMode;
use window_spec::Origin;

// Fills out with the answer of an accepted one-axis call; the grid forms make one pass for each axis, and a recipe one
// for each step.
//
// * `extreme` - which level of a window is kept.
// * `data`, `shape`, `size`, `axis`, `mode`, `origin`, `out` - as in `minimum_filter1d`.
//
// Supposes the number 0. 4 2 7 1 with Least and size 3 along axis 0 under Reflect and origin 0 gives 2 2 1 1.
pub fn pass(
    extreme: Extreme,
    data: &[i64],
    shape: &[usize],
    size: usize,
    axis: usize,
    mode: BorderMode,
    origin: isize,
    out: &mut [i64],
)
    requires { number_of «data».now (call_of shape.now size axis mode origin out.old) ≡ 0 }
    ensures { out.new ≡ answer_of (order_of extreme) «data».now
        (call_of shape.now size axis mode origin out.old) }
{
    if size == 1 {
        array::copy(data, out);
        return;
    }
    match window::origin_check(size, origin) {
        Origin::Refused => {}
        Origin::Pads(left, right) => filter_axis(
            extreme, mode, data, shape, axis, left, right, out,
        ),
    }
}
