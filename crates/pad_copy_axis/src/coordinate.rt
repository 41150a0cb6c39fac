// One coordinate of an axis copied onto another. Of an axis of p cells that stand s places apart, the cells with one
// coordinate stand in runs of s neighbouring cells, one in each block of p * s cells: they are copied run by run.
ghost use Rattle.std.specs.Prelude.{◌≡◌, ◌⊎◌, ◌+◌, ◌*◌, ◌≤◌, ◌<◌, length};
ghost use Rattle.numbers.specs.Limits.{most_padded_cells};
ghost use Rattle.pad_spec.specs.Frame.{row_set_lem};
ghost use Rattle.pad_spec.specs.Runs.{coordinate_set};

// Copies `count` cells, those from place `from` on, to the places from `at` on; the two runs have no place in common.
fn copy_run(from: usize, at: usize, count: usize, out: &mut [i64])
    requires { (from + count ≤ length out.old) × (at + count ≤ length out.old)
        × ((from + count ≤ at) ⊎ (at + count ≤ from)) }
    ensures { out.new ≡ row_set_lem out.old from count at out.old }
{
    for j in 0..count {
        out[at + j] = out[from + j];
    }
}

// Copies coordinate `from` of an axis onto coordinate `at`, run by run in each of the blocks of p * s cells.
#[tactic(auto, using(crate::proofs::RunByRun::block_in, crate::proofs::RunByRun::run_in))]
fn copy_runs(from: usize, at: usize, p: usize, s: usize, blocks: usize, out: &mut [i64])
    requires { (from < p) × (at < p) × (from ≡ at → ⊥) × (0 < s) × (length out.old ≡ blocks * (p * s))
        × (length out.old ≤ most_padded_cells) }
    ensures { out.new ≡ coordinate_set p s from at out.old }
{
    for block in 0..blocks {
        let first = block * (p * s);
        copy_run(first + from * s, first + at * s, s, out);
    }
}

// The same where the cells of the axis stand side by side: a run is one cell.
#[tactic(auto, using(lanes::proofs::Cells::step_le))]
fn copy_cells(from: usize, at: usize, p: usize, blocks: usize, out: &mut [i64])
    requires { (from < p) × (at < p) × (from ≡ at → ⊥) × (length out.old ≡ blocks * p)
        × (length out.old ≤ most_padded_cells) }
    ensures { out.new ≡ coordinate_set p 1 from at out.old }
{
    for block in 0..blocks {
        out[block * p + at] = out[block * p + from];
    }
}

// Copies coordinate `from` of an axis onto coordinate `at`.
//
// * `from`, `at` - two coordinates of the axis.
// * `p`, `s` - the cells of a lane, and the places from one to the next.
// * `blocks` - how many blocks of p * s cells the grid is.
// * `out` - the grid.
//
// Supposes what it is handed. Of 1 2 3 4 5 6 7 8 in two blocks of p = 2 and s = 2, 1 onto 0: 3 4 3 4 7 8 7 8.
pub(crate) fn copy_coordinate(
    from: usize,
    at: usize,
    p: usize,
    s: usize,
    blocks: usize,
    out: &mut [i64],
)
    requires { (from < p) × (at < p) × (from ≡ at → ⊥) × (0 < s) × (length out.old ≡ blocks * (p * s))
        × (length out.old ≤ most_padded_cells) }
    ensures { out.new ≡ coordinate_set p s from at out.old }
{
    if s == 1 {
        copy_cells(from, at, p, blocks, out);
        return;
    }
    copy_runs(from, at, p, s, blocks, out);
}
