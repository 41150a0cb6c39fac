// The votes along a row of a mask: its counts over each cell and the cell's neighbours, against half of the cells that
// they stand for.
ghost use Rattle.std.specs.Prelude.{◌≡◌, ◌+◌, ◌-◌, ◌*◌, ◌/◌, ◌≤◌, ◌<◌, ltb, length, get_or};
ghost use Rattle.numbers.specs.Limits.{most_cells};
ghost use Rattle.median_spec.specs.ByRows.{voted_at, Counted, set_row};

// The vote of an end of the row, whose two cells are i and i + 1.
fn vote_end(counts: &[u8], m: u8, i: usize) -> bool
    requires { Counted counts.now m × (i + 1 < length counts.now) }
    ensures { result ≡ ltb ((m * 2 - 1) / 2) (get_or counts.now i 0 + get_or counts.now (i + 1)
        0) }
{
    let half_of_two = (m * 2 - 1) / 2;
    half_of_two < counts[i] + counts[i + 1]
}

// Sets the places from a + 1 on to the votes of the cells that are no end of the row.
fn vote_inside(counts: &[u8], m: u8, a: usize, out: &mut [bool])
    requires { Counted counts.now m × (a + length counts.now ≤ length out.old)
        × (length out.old ≤ most_cells) }
    ensures { out.new ≡ set_row (a + 1) (length counts.now - 2)
        (λ k. voted_at counts.now m (k - a)) out.old }
{
    let inner = counts.len() - 2;
    let half_of_three = (m * 3 - 1) / 2;
    let b = a + 1;
    for i in 0..inner {
        out[b + i] = half_of_three < counts[i] + counts[i + 1] + counts[i + 2];
    }
}

// Sets the places from a on, one for each count, to the votes of m rows around.
pub fn vote_row(counts: &[u8], m: u8, a: usize, out: &mut [bool])
    requires { Counted counts.now m × (a + length counts.now ≤ length out.old)
        × (length out.old ≤ most_cells) }
    ensures { out.new ≡ set_row a (length counts.now)
        (λ k. voted_at counts.now m (k - a)) out.old }
{
    let last = counts.len() - 2;
    out[a] = vote_end(counts, m, 0);
    vote_inside(counts, m, a, out);
    out[a + 1 + last] = vote_end(counts, m, last);
}
