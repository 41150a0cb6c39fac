// The median of a mask, row by row: how many rows around are true at each place of a row, then the votes along it
// (`median_votes`).
ghost use Rattle.std.specs.Prelude.{◌≡◌, false, [], ◌∷◌, ◌+◌, ◌*◌, ◌≤◌, ◌<◌, min, length, get_or};
ghost use Rattle.numbers.specs.Limits.{most_cells};
ghost use Rattle.median_spec.specs.Around.{one, median_answer};
ghost use Rattle.median_spec.specs.ByRows.{span_of, plane_count, column_count, MaskRowNeeds, Room, added, set_row, median_of_place, MaskNeeds, Blank};

use median_spec::Span;

// One past the last coordinate around cell i, inside an axis of n cells.
fn past_around(n: usize, i: usize) -> usize
    requires { (i < n) × (n ≤ most_cells) }
    ensures { result ≡ min (i + 2) n }
{
    n.min(i + 2)
}

// The coordinates of cell i and its neighbours inside an axis of n cells.
fn around(n: usize, i: usize) -> Span
    requires { (i < n) × (n ≤ most_cells) }
    ensures { result ≡ span_of n i }
{
    Span {
        from: i.saturating_sub(1),
        to: past_around(n, i),
    }
}

// Adds 1 to each count whose cell of the row is true.
fn add_row(row: &[bool], counts: &mut [u8])
    requires { (length row.now ≡ length counts.old) × Room (λ z. one (get_or row.now z false)) counts.old }
    ensures { counts.new ≡ added (λ z. one (get_or row.now z false)) counts.old }
{
    for i in 0..counts.len() {
        counts[i] += row[i] as u8;
    }
}

// Adds to each count how many of the rows ys of plane x are true there.
fn add_plane(mask: &[bool], rows: usize, ys: Span, x: usize, counts: &mut [u8])
    requires { MaskRowNeeds mask.now (length counts.old) (x * rows + ys.to)
        × Room (plane_count mask.now rows (length counts.old) ys x) counts.old }
    ensures { counts.new ≡ added (plane_count mask.now rows (length counts.old) ys
        x) counts.old }
{
    let n = counts.len();
    for y in ys.from..ys.to {
        let a = (x * rows + y) * n;
        add_row(&mask[a..a + n], counts);
    }
}

// Adds to each count how many of the rows ys of the planes xs are true there.
fn add_planes(mask: &[bool], rows: usize, xs: Span, ys: Span, counts: &mut [u8])
    requires { MaskRowNeeds mask.now (length counts.old) (xs.to * rows) × (1 ≤ rows) × (ys.to ≤ rows)
        × Room (column_count mask.now rows (length counts.old) xs ys) counts.old }
    ensures { counts.new ≡ added (column_count mask.now rows (length counts.old) xs
        ys) counts.old }
{
    for x in xs.from..xs.to {
        add_plane(mask, rows, ys, x, counts);
    }
}

// Sets row r of out to its medians; counts is a buffer of zeros, as long as a row.
fn median_row(
    mask: &[bool],
    planes: usize,
    rows: usize,
    r: usize,
    counts: &mut [u8],
    out: &mut [bool],
)
    requires { MaskNeeds planes rows (length counts.old) mask.now × (r < planes * rows)
        × (length out.old ≡ length mask.now) × Blank counts.old }
    ensures { out.new ≡ set_row (r * length counts.old) (length counts.old)
        (median_of_place planes rows (length counts.old) mask.now) out.old }
{
    let xs = around(planes, r / rows);
    let ys = around(rows, r % rows);
    add_planes(mask, rows, xs, ys, counts);
    let m = (xs.to - xs.from) * (ys.to - ys.from);
    let a = r * counts.len();
    median_votes::vote_row(counts, m as u8, a, out);
}

// The same, with a buffer of its own.
fn set_row(mask: &[bool], planes: usize, rows: usize, n: usize, r: usize, out: &mut [bool])
    requires { MaskNeeds planes rows n mask.now × (r < planes * rows) × (length out.old ≡ length mask.now) }
    ensures { out.new ≡ set_row (r * n) n (median_of_place planes rows n mask.now)
        out.old }
{
    let mut counts = [0; numbers::LONGEST_AXIS];
    median_row(mask, planes, rows, r, &mut counts[..n], out);
}

// Sets every row of out to its medians.
pub fn median_rows(mask: &[bool], planes: usize, rows: usize, n: usize, out: &mut [bool])
    requires { MaskNeeds planes rows n mask.now × (length out.old ≡ length mask.now) }
    ensures { out.new ≡ median_answer (planes ∷ rows ∷ n ∷ []) mask.now }
{
    for r in 0..planes * rows {
        set_row(mask, planes, rows, n, r, out);
    }
}
