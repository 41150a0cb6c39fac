// A lane padded in place by a statistic: its two rims are filled in the grid itself, with one level of its own cells.
ghost use Rattle.std.specs.Prelude.{◌≡◌, true, cond, ◌+◌, ◌-◌, ◌≤◌, pos, length, take, drop};
ghost use Rattle.numbers.specs.Limits.{longest_padded_axis};
ghost use Rattle.lanes.specs.Lanes.{lane, lane_base, lane_inside, with_lane};
ghost use Rattle.border.specs.Border.{constant};
ghost use Rattle.pad_line.specs.Line.{padded_line};
ghost use Rattle.pad_spec.specs.Fill.{lane_serves, filled_lane};

use pad_spec::Statistic;

// A lane has at most 1,024 cells of its own and two pads of 64.
const MOST_CELLS: usize = numbers::LONGEST_PADDED_AXIS;

// Stores one level in both rims of lane `l`, which has `p` cells `s` apart from `base` on; its own are the n cells
// from place left on.
fn fill_level(
    c: i64,
    base: usize,
    p: usize,
    s: usize,
    l: usize,
    left: usize,
    n: usize,
    out: &mut [i64],
)
    requires { (lane_inside p s l (length out.old) ≡ true) × (base ≡ lane_base p s l) × (left + n ≤ p) }
    ensures { out.new ≡ with_lane (pos 0) p s l
        (padded_line (pos 0) (constant c) left (p - (left + n))
        (take n (drop left (lane (pos 0) p s l out.old)))) out.old }
{
    for k in 0..left {
        let at = base + k * s;
        out[at] = c;
    }
    for j in left + n..p {
        let at = base + j * s;
        out[at] = c;
    }
}

// Whether the lane is inside the grid, and its own cells are some and lie in it.
#[tactic(auto, using(lanes::proofs::FirstPlace::place_none, lanes::proofs::FirstPlace::place_some), unfolding(pad_spec::specs::Fill::lane_serves))]
fn serves(base: usize, p: usize, s: usize, l: usize, count: usize, left: usize, n: usize) -> bool
    requires { base ≡ cond (lane_inside p s l count) (lane_base p s l) count }
    ensures { result ≡ lane_serves p s l count left n }
{
    base != count && p <= MOST_CELLS && 1 <= n && n <= p && left <= p - n
}

// Pads a lane of a grid in place: its own cells are extended to both ends of the lane by a level of them.
//
// * `statistic` - which level.
// * `p`, `s` - the cells of the lane with both rims, and how many places apart they stand.
// * `l` - the number of the lane, counted from 0 in stored order of the lanes' first cells.
// * `left`, `n` - the place in the lane where its own cells start, and how many they are.
// * `line` - a buffer of 1,152 cells, where the lane's cells stand apart, else of any length; what it holds affects
//   nothing.
// * `out` - the cells of the grid.
//
// Where the lane is not inside the grid or over 1,152 cells, or its own cells are none or pass its end, the grid stays.
// The cells 9 1 2 3 9, a lane of 5 cells with 3 of its own from place 1 on, become 3 1 2 3 3 by Statistic::Maximum.
pub(crate) fn fill_lane(
    statistic: Statistic,
    p: usize,
    s: usize,
    l: usize,
    left: usize,
    n: usize,
    line: &mut [i64],
    out: &mut [i64],
)
    requires { (s ≡ 1 → ⊥) → length line.old ≡ longest_padded_axis }
    ensures { out.new ≡ filled_lane statistic p s l left n out.old }
{
    let base = lanes::first_place(out.len(), p, s, l);
    if !serves(base, p, s, l, out.len(), left, n) {
        return;
    }
    let c = crate::level::level_in(statistic, base, p, s, l, left, n, out, line);
    fill_level(c, base, p, s, l, left, n, out);
}
