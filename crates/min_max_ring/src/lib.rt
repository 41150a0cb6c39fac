// What the ring of MINLIST rests on: its pair, its places, and the lines that it serves. The two hot functions over it
// are in `min_max_line` and keep the ring in their locals.
//
// MINLIST: Richard Harter, "The minimum on a sliding window algorithm". The ring holds levels of the window, each with
// the cell at which it dies, from the front, the least of the window, to the back, the cell read last.
#![tactic(auto)]

ghost use Rattle.std.specs.Prelude.{◌≡◌};
ghost use Rattle.min_max_ring.specs.Extremes.{serving};
ghost use Rattle.min_max_ring.specs.Ring.{ring_place};
ghost use Rattle.min_max_ring.specs.Rows.{MinMaxRingRows};

// A level of the window, and the cell at whose reading it leaves the window: one window's length after its own.
#[derive(Clone, Copy)]
pub struct Pair {
    pub val: i64,
    pub death: usize,
}

// The place of the ring that is k places from its array's start, at most once round the end: 64 is place 64, 65 is
// place 0.
#[tactic(auto, unfolding(crate::specs::Ring::ring_place))]
pub fn place(k: usize) -> usize
    ensures { result ≡ ring_place k }
{
    if k < numbers::LONGEST_WINDOW {
        return k;
    }
    k - numbers::LONGEST_WINDOW
}

// Whether the ring serves a line: windows of 2 to 65 cells, at most 1,088 cells, and a cell of output for each window.
//
// * `n` - the cells of the line.
// * `len` - the cells of a window.
// * `m` - the cells of the output.
//
// A line of 6 cells with windows of 3 has 4 windows: (6, 3, 4) is served, (6, 3, 6) is not.
pub fn serves(n: usize, len: usize, m: usize) -> bool
    ensures { result ≡ serving n len m }
{
    (2..=numbers::LONGEST_WINDOW).contains(&len)
        && n <= numbers::LONGEST_LINE
        && len <= n + 1
        && m == n + 1 - len
}

// Worked rows of this crate's definitions.
pub fn rows()
    ensures { MinMaxRingRows }
{}
