// The calls of padding. The pads of each axis stand in two slices.
ghost use Rattle.std.specs.Prelude.{length};
ghost use Rattle.numbers.specs.Refusal.{Answers};
ghost use Rattle.pad_spec.specs.Conditions.{pad_judged};
ghost use Rattle.pad_spec.specs.Levels.{padded_grid, padded_over};
ghost use Rattle.pad_spec.specs.Pads.{lefts_of, rights_of};
ghost use Rattle.codes.specs.Codes.{padding_of, unknown_pad, coded};
ghost use Rattle.codes_cells.specs.Cells.{pairs_of};

// Pads a grid into a lent output; the call `pad`.
//
// * `data` - the cells of the grid, in row-major order.
// * `shape` - the length of each axis.
// * `lefts`, `rights`, `count` - the pads before and after each axis, and how many pairs count: one for all axes, or
//   one for each. At most three of each are read, and a missing one is 0.
// * `code`, `constant` - the padding mode: 0 constant, 1 edge, 2 maximum, 3 mean, 4 median, 5 minimum, 6 reflect, 7
//   symmetric, 8 wrap.
// * `out` - as many cells as the padded grid; kept as it was where the call is refused.
//
// Refuses: 1 (shape), 2 (length), 3 (level), 9 (constant), 10 (pads), 11 (reach), 100 (unknown code). Of 1 2 3 with
// pads of 2: edge gives 1 1 1 2 3 3 3, reflect 3 2 1 2 3 2 1.
#[unsafe(no_mangle)]
pub extern "C" fn suvvokal_pad(
    data: &[i64],
    shape: &[usize],
    lefts: &[usize],
    rights: &[usize],
    count: usize,
    code: u8,
    constant: i64,
    out: &mut [i64],
) -> u8
    ensures { Answers (coded (pad_judged (padding_of code constant) shape.now
        (pairs_of lefts.now rights.now) count «data».now (length out.old))
        (unknown_pad code)) (padded_grid (padding_of code constant) shape.now
        (lefts_of shape.now (pairs_of lefts.now rights.now) count)
        (rights_of shape.now (pairs_of lefts.now rights.now) count)
        «data».now) out.old result out.new }
{
    let mode = codes::pad_mode_of(code, constant);
    let pairs = codes_cells::pairs_of(lefts, rights);
    if 8 < code {
        let judged = pad_judge::judge(data, shape, pairs, count, mode, out.len());
        return codes::unknown_after(numbers::answer_number(judged));
    }
    numbers::answer_number(pad::pad(data, shape, pairs, count, mode, out))
}

// As `suvvokal_pad`, but under constant the rim keeps what was lent; the call `pad_to`.
// Of 1 2 with pads of 1, lent 8 8 8 8: constant leaves 8 1 2 8, edge 1 1 2 2.
#[unsafe(no_mangle)]
pub extern "C" fn suvvokal_pad_to(
    data: &[i64],
    shape: &[usize],
    lefts: &[usize],
    rights: &[usize],
    count: usize,
    code: u8,
    constant: i64,
    out: &mut [i64],
) -> u8
    ensures { Answers (coded (pad_judged (padding_of code constant) shape.now
        (pairs_of lefts.now rights.now) count «data».now (length out.old))
        (unknown_pad code)) (padded_over (padding_of code constant) shape.now
        (lefts_of shape.now (pairs_of lefts.now rights.now) count)
        (rights_of shape.now (pairs_of lefts.now rights.now) count) «data».now
        out.old) out.old result out.new }
{
    let mode = codes::pad_mode_of(code, constant);
    let pairs = codes_cells::pairs_of(lefts, rights);
    if 8 < code {
        let judged = pad_judge::judge(data, shape, pairs, count, mode, out.len());
        return codes::unknown_after(numbers::answer_number(judged));
    }
    numbers::answer_number(pad::pad_to(data, shape, pairs, count, mode, out))
}
