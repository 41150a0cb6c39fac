// What reading works on is lent to every function: a buffer of bytes, the levels and floats of a request, and the
// reader's state, numbers that say where reading stands and what was read. The constants name the slots of the state,
// and the places where lists start.

ghost use Rattle.std.specs.Prelude.{◌≡◌, cond, ltb};
ghost use Rattle.ndimage_spec.specs.Faults.{fault_number, fault_slot};

use ndimage_spec::Fault;

// The token in front, what was read behind it.
pub type Buffer = [u8; 65792];

// The levels of a grid, its weights, a constant, an origin and what an output holds before, each with one cell more
// than any call takes; then the numbers of 16 steps, and the constants of axes 1 and 2.
pub type Levels = [i64; 41406];

// The floats of a grid, its weights and a constant.
pub type Floats = [f64; 8538];

// The bytes of a file, as many as a token can stand for.
pub type File = [u8; 128];

pub type State = [usize; 48];

// The next byte of the buffer, and where what was read ends.
pub const AT: usize = 0;

pub const END: usize = 1;

// How many bytes of the line were read, at most one more than a line may have.
pub const LINE: usize = 2;

// How many bytes the token has, 0 for none, at most one more than are kept.
pub const LEN: usize = 3;

// OPEN, SPACE, LINE_END or INPUT_END of cursor.rt.
pub const STAGE: usize = 4;

// The number of the first fault of the line, 0 for none.
pub const FAULT: usize = 5;

// The number of the request.
pub const REQUEST: usize = 6;

// The last count; after a word, 1 where it is the first of its table.
pub const LAST: usize = 7;

// The parts of one count or word, 0 where the request has none; `part_table` (crates/ndimage_spec/specs/Parts.antt)
// has all slots.
pub const FORM: usize = 8;

pub const AXES: usize = 9;

pub const CELLS: usize = 10;

pub const SIDES: usize = 11;

pub const COUNT: usize = 12;

pub const SIZE: usize = 13;

pub const AXIS: usize = 14;

pub const BORDER: usize = 15;

pub const PAIRS: usize = 16;

pub const OUT: usize = 17;

pub const SECOND: usize = 18;

pub const FILE: usize = 19;

// Where lists of counts start.
pub const LENGTHS_AT: usize = 20;

pub const KERNEL_AT: usize = 24;

pub const PADS_AT: usize = 28;

// The count that is written to a file, and how many steps follow.
pub const RECIPE_COUNT: usize = 34;

pub const STEPS: usize = 35;

// The borders of axes 1 and 2, where a request takes three.
pub const BORDER_1: usize = 36;

pub const BORDER_2: usize = 37;

// Where the lists and single levels start among the levels; the floats start at the same places.
pub const DATA_AT: usize = 0;

pub const WEIGHTS_AT: usize = 8193;

pub const CONSTANT_AT: usize = 8537;

pub const ORIGIN_AT: usize = 8538;

pub const HELD_AT: usize = 8539;

pub const STEPS_AT: usize = 41308;

pub const CONSTANT_1_AT: usize = 41404;

pub const CONSTANT_2_AT: usize = 41405;

// The number of a fault, as FAULT holds it.
pub fn fault_number(fault: Fault) -> usize
    ensures { result ≡ fault_number fault }
{
    fault as usize
}

// The fault that FAULT holds, where it holds one.
pub fn fault_in(slot: usize) -> Option<Fault>
    ensures { fault_slot result ≡ cond (ltb 15 slot) 0 slot }
{
    Some(match slot {
        1 => Fault::Request,
        2 => Fault::Missing,
        3 => Fault::Extra,
        4 => Fault::Number,
        5 => Fault::Mode,
        6 => Fault::Form,
        7 => Fault::Kernel,
        8 => Fault::Weights,
        9 => Fault::Long,
        10 => Fault::Mask,
        11 => Fault::Empty,
        12 => Fault::Bytes,
        13 => Fault::ManyBytes,
        14 => Fault::ManySteps,
        15 => Fault::Field,
        _ => return None,
    })
}
