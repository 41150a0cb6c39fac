// The symmetry class of a kernel, found by its mirrored pairs.
#![tactic(auto)]

ghost use Rattle.std.specs.Prelude.{◌≡◌, true, false, cond, ◌%◌, length, pos};
ghost use Rattle.std.specs.Float.{nan};
ghost use Rattle.direction.specs.Direction.{directed};
ghost use Rattle.symmetry_spec.specs.declared.SymmetryState.TheVariants.{NonSymmetric};
ghost use Rattle.symmetry_spec.specs.Class.{exceeds, pair_differs, differ_z, differ_f, class_z, class_f};

use direction::weight_at_f64;
use symmetry_spec::SymmetryState;

// Whether |x| > 2^-52, which is f64::EPSILON.
fn above_epsilon(x: f64) -> bool
    ensures { result ≡ exceeds x }
{
    x > f64::EPSILON || x < -f64::EPSILON
}

// Whether a pair differs, the left weight's sign turned where `turned` says so. No i64 is the negative of i64::MIN.
fn differ_i64(right: i64, left: i64, turned: bool) -> bool
    ensures { result ≡ differ_z turned right left }
{
    if turned {
        left == i64::MIN || right != -left
    } else {
        right != left
    }
}

// The same of floats, by the rounded difference, or the rounded sum.
fn differ_f64(right: f64, left: f64, turned: bool) -> bool
    ensures { result ≡ differ_f turned right left }
{
    let apart = if turned { right + left } else { right - left };
    above_epsilon(apart)
}

// `state`, unless a mirrored pair differs: the loop is left at the first one that does.
fn check_pairs_i64(weights: &[i64], turned: bool, state: SymmetryState) -> SymmetryState
    requires { length weights.now % 2 ≡ 1 }
    ensures { result ≡ cond (pair_differs (differ_z turned) (pos 0) weights.now) NonSymmetric state }
{
    let half = weights.len() / 2;
    let mut found = state;
    for i in 1..=half {
        if differ_i64(weights[half + i], weights[half - i], turned) {
            found = SymmetryState::NonSymmetric;
            break;
        }
    }
    found
}

// The same of floats, of the weights as they are applied.
fn check_pairs_f64(
    weights: &[f64],
    backward: bool,
    turned: bool,
    state: SymmetryState,
) -> SymmetryState
    requires { length weights.now % 2 ≡ 1 }
    ensures { result ≡ cond (pair_differs (differ_f turned) nan (directed backward weights.now))
        NonSymmetric state }
{
    let middle = weights.len() / 2;
    let mut found = state;
    for i in 1..=middle {
        let right = weight_at_f64(weights, backward, middle + i);
        let left = weight_at_f64(weights, backward, middle - i);
        if differ_f64(right, left, turned) {
            found = SymmetryState::NonSymmetric;
            break;
        }
    }
    found
}

// The symmetry class of whole weights.
//
// * `weights` - the kernel's weights along one axis, any number of them.
//
// An even number of weights, none among them, is NonSymmetric. 1 2 5 -2 -1 is AntiSymmetric; its middle weight is never
// looked at.
pub fn symmetry_state_i64(weights: &[i64]) -> SymmetryState
    ensures { result ≡ class_z weights.now }
{
    if weights.len() % 2 == 0 {
        return SymmetryState::NonSymmetric;
    }
    let state = check_pairs_i64(weights, false, SymmetryState::Symmetric);
    let SymmetryState::NonSymmetric = state else {
        return state;
    };
    check_pairs_i64(weights, true, SymmetryState::AntiSymmetric)
}

// The symmetry class of float weights as they are applied: a pair differs by more than 2^-52.
//
// * `weights` - the kernel's weights along one axis, any number of them and any floats.
// * `backward` - whether they are applied from the last to the first.
//
// An even number of weights is NonSymmetric, and a pair with a NaN does not differ. 2 5 -2 is AntiSymmetric either way.
pub fn directed_state_f64(weights: &[f64], backward: bool) -> SymmetryState
    ensures { result ≡ class_f (directed backward weights.now) }
{
    if weights.len() % 2 == 0 {
        return SymmetryState::NonSymmetric;
    }
    let state = check_pairs_f64(weights, backward, false, SymmetryState::Symmetric);
    let SymmetryState::NonSymmetric = state else {
        return state;
    };
    check_pairs_f64(weights, backward, true, SymmetryState::AntiSymmetric)
}

// The symmetry class of float weights in the caller's order.
//
// * `weights` - as for `directed_state_f64`.
//
// 0, 1, 2^-53 is Symmetric.
pub fn symmetry_state_f64(weights: &[f64]) -> SymmetryState
    ensures { result ≡ class_f weights.now }
{
    directed_state_f64(weights, false)
}
