// The axes of a grid and its kernel, and the sources of an outer axis.
ghost use Rattle.std.specs.Prelude.{◌≡◌, ◌≤◌, pos, length};
ghost use Rattle.numbers.specs.Limits.{longest_axis, longest_line};
ghost use Rattle.numbers.specs.Lists.{tabulate};
ghost use Rattle.border.specs.Modes.{border_of};
ghost use Rattle.correlate_grid_axes.specs.Axes.{axis_from, axes_of, Serves, numbered, Found};

use border::BorderMode;

// An axis: its cells, how many places are padded before and after them, and the kernel's cells along it.
#[derive(Clone, Copy)]
pub struct Axis {
    pub len: usize,
    pub left: usize,
    pub right: usize,
    pub side: usize,
}

// The three axes of a grid, the outermost first.
#[derive(Clone, Copy)]
pub struct Axes {
    pub planes: Axis,
    pub rows: Axis,
    pub cells: Axis,
}

// The axis that stands `back` axes before the last. A missing one has one cell and no pads, and the kernel one cell
// there.
fn axis_from(shape: &[usize], back: usize, side: usize, left: usize, right: usize) -> Axis
    ensures { result ≡ axis_from shape.now back side left right }
{
    let axes = shape.len();
    if axes <= back {
        return Axis {
            len: 1,
            left: 0,
            right: 0,
            side: 1,
        };
    }
    let len = array::len_of(shape, axes - 1 - back);
    Axis {
        len,
        left,
        right,
        side,
    }
}

// The three axes of a grid of one to three.
pub fn axes_of(shape: &[usize], side: usize, left: usize, right: usize) -> Axes
    ensures { result ≡ axes_of shape.now side left right }
{
    let planes = axis_from(shape, 2, side, left, right);
    let rows = axis_from(shape, 1, side, left, right);
    let cells = axis_from(shape, 0, side, left, right);
    Axes {
        planes,
        rows,
        cells,
    }
}

// The border under which the numbers of an axis are padded: −1 stands for the constant.
fn numbering(mode: BorderMode) -> BorderMode
    ensures { border_of result ≡ numbered (border_of mode) }
{
    match mode {
        BorderMode::Constant(_) => BorderMode::Constant(-1),
        BorderMode::Mirror => BorderMode::Mirror,
        BorderMode::Nearest => BorderMode::Nearest,
        BorderMode::Reflect => BorderMode::Reflect,
        BorderMode::Wrap => BorderMode::Wrap,
    }
}

// Sets the cells to 0, 1, 2, ..
fn count_up(out: &mut [i64])
    requires { length out.old ≤ longest_axis }
    ensures { out.new ≡ tabulate pos 0 (length out.old) }
{
    for (i, cell) in out.iter_mut().enumerate() {
        *cell = i as i64;
    }
}

// Sets the table's places to the sources of the axis, by padding the numbers of its cells. Out of line: taken into its
// caller, twice, it makes LLVM (22) clear one table more a call.
#[inline(never)]
pub fn find_sources(mode: BorderMode, axis: Axis, table: &mut [i64])
    requires { Serves (border_of mode) axis × (length table.old ≡ longest_line) }
    ensures { Found (border_of mode) axis table.new }
{
    let mut numbers = [0; numbers::LONGEST_AXIS];
    count_up(&mut numbers);
    pad_line::pad_lane(
        &numbers,
        1,
        0,
        axis.len,
        numbering(mode),
        axis.left,
        axis.right,
        table,
    );
}
