// The first of each window of a line, the least or the greatest, by MINLIST: Richard Harter, "The minimum on a sliding
// window algorithm"; what a window holds is SciPy's pages on minimum_filter1d and maximum_filter1d. The ring of pairs is
// `min_max_ring`'s, an array of 65 with its start and its count. All of it stays in the locals of one function, and the
// front is kept beside it: a ring that is passed on is copied at each cell.
ghost use Rattle.std.specs.Prelude.{◌≡◌, length};
ghost use Rattle.min_max_ring.specs.Extremes.{RingNeeds, extremes, swept_by};

use crate::order::Order;
use min_max_ring::{Pair, place, serves};
use min_max_three::three_cells;

// Whether a cell takes the place of the front: on a tie too, since it dies later.
fn takes_front<O: Order>(v: i64, front: i64) -> bool
    ensures { result ≡ O.le v front }
{
    O::before(v, front)
}

// Writes the first of line[i .. i + len] to each cell i of out.
fn ring_cells<O: Order>(line: &[i64], len: usize, out: &mut [i64])
    requires { RingNeeds (length line.now) len (length out.old) }
    ensures { out.new ≡ extremes O.le line.now len (length out.old) }
{
    let none = Pair { val: 0, death: 0 };
    let mut pairs = [none; numbers::LONGEST_WINDOW];
    let mut front = line[0];
    let mut death = len;
    pairs[0] = Pair { val: front, death };
    let mut count = 1usize;
    // The first window fills: no pair dies, and nothing is written.
    for i in 1..len - 1 {
        let v = line[i];
        if O::before(v, front) {
            front = v;
            death = i + len;
            pairs[0] = Pair { val: v, death };
            count = 1;
        } else {
            let mut last = line[i - 1];
            // A `while`: pairs leave the ring at its end, and no index is counted.
            while O::before(v, last) {
                count -= 1;
                let b = count - 1;
                let p = pairs[b];
                last = p.val;
            }
            pairs[count] = Pair {
                val: v,
                death: i + len,
            };
            count += 1;
        }
    }
    // Every further cell ends a window.
    let mut start = 0usize;
    for i in len - 1..line.len() {
        let v = line[i];
        if death == i {
            start = place(start + 1);
            count -= 1;
            let p = pairs[start];
            front = p.val;
            death = p.death;
        }
        let leads = takes_front::<O>(v, front);
        if leads {
            front = v;
            death = i + len;
            pairs[start] = Pair { val: v, death };
            count = 1;
        } else {
            let mut last = line[i - 1];
            // A `while`: pairs leave the ring at its end, and no index is counted.
            while O::before(v, last) {
                count -= 1;
                let b = place(start + count - 1);
                let p = pairs[b];
                last = p.val;
            }
            let b = place(start + count);
            pairs[b] = Pair {
                val: v,
                death: i + len,
            };
            count += 1;
        }
        let at = i + 1 - len;
        out[at] = front;
    }
}

// Writes the first of each window of a line that the ring serves.
pub(crate) fn windows<O: Order>(line: &[i64], len: usize, out: &mut [i64])
    requires { RingNeeds (length line.now) len (length out.old) }
    ensures { out.new ≡ extremes O.le line.now len (length out.old) }
{
    if len == 3 {
        three_cells(O::greatest(), line, out);
    } else {
        ring_cells::<O>(line, len, out);
    }
}

// Writes the first of each window of a line that the ring serves. Any other line leaves out as it was.
pub(crate) fn sweep<O: Order>(line: &[i64], len: usize, out: &mut [i64])
    ensures { out.new ≡ swept_by O.le line.now len out.old }
{
    if serves(line.len(), len, out.len()) {
        windows::<O>(line, len, out);
    }
}
