// The two calls: a judge that only returns a number, then the grid laid in the output.
ghost use Rattle.std.specs.Prelude.{◌≡◌, false, cond, length};
ghost use Rattle.numbers.specs.Lists.{any_of};
ghost use Rattle.numbers.specs.Number.{answer_number};
ghost use Rattle.numbers.specs.Refusal.{refusal_of, Answers};
ghost use Rattle.array_spec.specs.Conditions.{bad_level};
ghost use Rattle.array_spec.specs.Grid.{cell_count};
ghost use Rattle.border.specs.declared.PadMode.TheVariants.{Constant};
ghost use Rattle.pad_spec.specs.Fill.{mode_along, mode_taking};
ghost use Rattle.pad_spec.specs.Conditions.{pad_judged};
ghost use Rattle.pad_spec.specs.Levels.{padded_grid, padded_over};
ghost use Rattle.pad_spec.specs.Pads.{lefts_of, rights_of};
ghost use Rattle.pad_spec.specs.Frame.{Framed, Filling, middle_set};
ghost use Rattle.pad_middle.specs.Around.{around_set};
ghost use Rattle.pad.specs.Laid.{laid};

use border::{CellBorder, PadMode};
use numbers::Refusal;
use pad_middle::copy_middle;
use pad_spec::{Filler, Pair, Statistic};

// Makes what a grid is laid over under Constant: where the whole padded grid is asked for, every place that is not in
// its middle is set to the constant.
fn start(
    whole: bool,
    c: i64,
    cells: usize,
    shape: &[usize],
    lefts: &[usize],
    padded: &[usize],
    out: &mut [i64],
)
    requires { Framed shape.now lefts.now padded.now × (cells ≡ cell_count shape.now)
        × (length out.old ≡ cell_count padded.now) }
    ensures { out.new ≡ cond whole
        (around_set c shape.now lefts.now padded.now out.old)
        out.old }
{
    if !whole {
        return;
    }
    pad_middle::fill_around(c, cells, shape, lefts, padded, out);
}

// Lays a grid in the middle of a padded grid under Constant: the rim holds the constant where the whole is asked for,
// else what was lent.
fn lay_level(
    data: &[i64],
    shape: &[usize],
    lefts: &[usize],
    padded: &[usize],
    c: i64,
    whole: bool,
    out: &mut [i64],
)
    requires { Framed shape.now lefts.now padded.now × (length «data».now ≡ cell_count shape.now)
        × (length out.old ≡ cell_count padded.now) }
    ensures { out.new ≡ cond whole
        (laid (Constant c) shape.now lefts.now padded.now «data».now)
        (middle_set shape.now lefts.now padded.now «data».now
        out.old) }
{
    start(whole, c, data.len(), shape, lefts, padded, out);
    copy_middle(data, shape, lefts, padded, out);
}

// Lays a grid in the middle of a padded grid, and fills the rims with cells of their lanes.
fn lay_cells(
    data: &[i64],
    shape: &[usize],
    lefts: &[usize],
    padded: &[usize],
    along: CellBorder,
    out: &mut [i64],
)
    requires { Filling along shape.now lefts.now padded.now × (any_of bad_level «data».now ≡ false)
        × (length «data».now ≡ cell_count shape.now) × (length out.old ≡ cell_count padded.now) }
    ensures { out.new ≡ laid (mode_along along) shape.now lefts.now
        padded.now «data».now }
{
    copy_middle(data, shape, lefts, padded, out);
    pad_copy::copy_axes(along, shape, lefts, padded, out);
}

// Lays a grid in the middle of a padded grid, and fills the rims with a statistic of their lanes.
fn lay_statistic(
    data: &[i64],
    shape: &[usize],
    lefts: &[usize],
    padded: &[usize],
    statistic: Statistic,
    out: &mut [i64],
)
    requires { Framed shape.now lefts.now padded.now × (any_of bad_level «data».now ≡ false)
        × (length «data».now ≡ cell_count shape.now) × (length out.old ≡ cell_count padded.now) }
    ensures { out.new ≡ laid (mode_taking statistic) shape.now lefts.now
        padded.now «data».now }
{
    copy_middle(data, shape, lefts, padded, out);
    pad_statistic::fill_levels(statistic, shape, lefts, padded, out);
}

// Lays a grid in a padded one from the pairs of pads, by what the mode fills a rim with; lefts and padded are
// buffers, as long as the shape.
fn lay_in(
    data: &[i64],
    shape: &[usize],
    pads: [Pair; 3],
    count: usize,
    mode: PadMode,
    whole: bool,
    lefts: &mut [usize],
    padded: &mut [usize],
    out: &mut [i64],
)
    requires { (refusal_of (pad_judged mode shape.now pads count «data».now (length out.old)) ≡ 0)
        × (length lefts.old ≡ length shape.now) × (length padded.old ≡ length shape.now) }
    ensures { out.new ≡ cond whole
        (padded_grid mode shape.now (lefts_of shape.now pads count)
        (rights_of shape.now pads count) «data».now)
        (padded_over mode shape.now (lefts_of shape.now pads count)
        (rights_of shape.now pads count) «data».now out.old) }
{
    pad_spec::set_frame(shape, pads, count, lefts, padded);
    let filler = pad_spec::filler_of(mode);
    match filler {
        Filler::Level(c) => lay_level(data, shape, lefts, padded, c, whole, out),
        Filler::Cells(along) => lay_cells(data, shape, lefts, padded, along, out),
        Filler::Statistic(statistic) => lay_statistic(data, shape, lefts, padded, statistic, out),
    }
}

// The same with buffers of its own.
fn lay(
    data: &[i64],
    shape: &[usize],
    pads: [Pair; 3],
    count: usize,
    mode: PadMode,
    whole: bool,
    out: &mut [i64],
)
    requires { refusal_of (pad_judged mode shape.now pads count «data».now (length out.old)) ≡ 0 }
    ensures { out.new ≡ cond whole
        (padded_grid mode shape.now (lefts_of shape.now pads count)
        (rights_of shape.now pads count) «data».now)
        (padded_over mode shape.now (lefts_of shape.now pads count)
        (rights_of shape.now pads count) «data».now out.old) }
{
    let axes = shape.len();
    let mut lefts = [0; 3];
    let mut padded = [0; 3];
    lay_in(
        data,
        shape,
        pads,
        count,
        mode,
        whole,
        &mut lefts[..axes],
        &mut padded[..axes],
        out,
    );
}

// Pads a grid into a lent output, axis by axis in rising order, later axes reading what earlier ones filled. Under
// Constant only the middle is written and the rim keeps what was lent; in every other mode nothing lent affects the
// result.
//
// * `data` - the cells of the grid.
// * `shape` - the length of each axis.
// * `pads`, `count` - the pairs of pads, and how many of them count: one for all axes, or one for each.
// * `mode` - the padding mode.
// * `out` - the lent output, as many cells as the padded grid.
//
// Refuses: 1 (shape), 2 (length), 3 (level), 9 (constant), 10 (pads), 11 (reach). Of 1 2 with pads of 1, lent 8 8 8 8:
// Constant leaves 8 1 2 8, Edge 1 1 2 2.
pub fn pad_to(
    data: &[i64],
    shape: &[usize],
    pads: [Pair; 3],
    count: usize,
    mode: PadMode,
    out: &mut [i64],
) -> Result<(), Refusal>
    ensures { Answers (pad_judged mode shape.now pads count «data».now
        (length out.old)) (padded_over mode shape.now (lefts_of shape.now pads count)
        (rights_of shape.now pads count) «data».now out.old) out.old (answer_number result)
        out.new }
{
    pad_judge::judge(data, shape, pads, count, mode, out.len())?;
    lay(data, shape, pads, count, mode, false, out);
    Ok(())
}

// Pads a grid into a lent output as `pad_to` does, and under Constant fills the rim with the constant: nothing lent
// affects the result.
//
// * `data` - the cells of the grid.
// * `shape` - the length of each axis.
// * `pads`, `count` - the pairs of pads, and how many of them count: one for all axes, or one for each.
// * `mode` - the padding mode.
// * `out` - the lent output, as many cells as the padded grid.
//
// Refuses: 1 (shape), 2 (length), 3 (level), 9 (constant), 10 (pads), 11 (reach). Of 1 2 3 with pads of 2: Edge gives 1
// 1 1 2 3 3 3, Reflect 3 2 1 2 3 2 1, Constant(7) 7 7 1 2 3 7 7.
pub fn pad(
    data: &[i64],
    shape: &[usize],
    pads: [Pair; 3],
    count: usize,
    mode: PadMode,
    out: &mut [i64],
) -> Result<(), Refusal>
    ensures { Answers (pad_judged mode shape.now pads count «data».now
        (length out.old)) (padded_grid mode shape.now (lefts_of shape.now pads count)
        (rights_of shape.now pads count) «data».now) out.old (answer_number result) out.new }
{
    pad_judge::judge(data, shape, pads, count, mode, out.len())?;
    lay(data, shape, pads, count, mode, true, out);
    Ok(())
}
