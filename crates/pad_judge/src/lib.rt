// Conditions 9 and 11 on the pads of a grid, and the judge of `pad` and `pad_to`: what both refuse, before anything
// is stored. Condition 10 stands in `pad_count`.
#![tactic(auto)]

ghost use Rattle.std.specs.Prelude.{◌≡◌};
ghost use Rattle.numbers.specs.Number.{answer_number};
ghost use Rattle.numbers.specs.Refusal.{refusal_of};
ghost use Rattle.pad_spec.specs.Conditions.{bad_constant, bad_pad_reach_on, bad_pad_reach, pad_judged};

use numbers::Refusal;
use pad_spec::{Filler, Pair, pair_of};

// Condition 9: whether mode carries a level that condition 3 would refuse.
fn bad_constant(mode: border::PadMode) -> bool
    ensures { result ≡ bad_constant mode }
{
    match pad_spec::filler_of(mode) {
        Filler::Level(t) => array::bad_level(t),
        Filler::Cells(_) | Filler::Statistic(_) => false,
    }
}

// Condition 11 of an axis.
fn bad_reach_on(
    mode: border::PadMode,
    shape: &[usize],
    pads: [Pair; 3],
    count: usize,
    axis: usize,
) -> bool
    ensures { result ≡ bad_pad_reach_on mode shape.now pads count axis }
{
    let n = array::len_of(shape, axis);
    let p = pair_of(pads, count, axis);
    pad_spec::bad_pad(mode, n, p.left) || pad_spec::bad_pad(mode, n, p.right)
}

// Condition 11: on some axis a pad that the mode cannot fill.
fn bad_reach(mode: border::PadMode, shape: &[usize], pads: [Pair; 3], count: usize) -> bool
    ensures { result ≡ bad_pad_reach mode shape.now pads count }
{
    (0..shape.len()).any(|a| bad_reach_on(mode, shape, pads, count, a))
}

// What `pad` and `pad_to` refuse, in rising order: the number of the first condition that holds, or 0.
//
// * `data` - the cells of the grid.
// * `shape` - the length of each axis.
// * `pads`, `count` - the pairs of pads, and how many of them count: one for all axes, or one for each.
// * `mode` - the padding mode.
// * `out` - the length of the lent output.
//
// Refuses: 1 (shape), 2 (length), 3 (level), 9 (constant), 10 (pads), 11 (reach). Three cells with a pad of 3 under
// Reflect give 11.
pub fn judge(
    data: &[i64],
    shape: &[usize],
    pads: [Pair; 3],
    count: usize,
    mode: border::PadMode,
    out: usize,
) -> Result<(), Refusal>
    ensures { answer_number result ≡ refusal_of (pad_judged mode shape.now pads count «data».now out) }
{
    array::judge_grid(data, shape, &[])?;
    if bad_constant(mode) {
        return Err(Refusal::Constant);
    }
    if pad_count::bad_pads(shape, pads, count, out) {
        return Err(Refusal::Pads);
    }
    if bad_reach(mode, shape, pads, count) {
        return Err(Refusal::Reach);
    }
    Ok(())
}
