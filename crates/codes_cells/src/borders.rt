// The border of each axis, which stands in two slices.
ghost use Rattle.std.specs.Prelude.{◌≡◌, pos, get_or};
ghost use Rattle.codes_cells.specs.Borders.{code_at, mode_at, modes_of, unknown_borders};

use border::BorderMode;

// The code of an axis, and 255, which names no border, where it is missing. Of 1 4 axis 1 has 4 and axis 2 has 255.
fn code_at(codes: &[u8], axis: usize) -> u8
    ensures { result ≡ code_at codes.now axis }
{
    codes.get(axis).copied().unwrap_or(255)
}

// The constant of an axis, and 0 where it is missing. Of 5 6 axis 1 has 6 and axis 2 has 0.
fn constant_at(constants: &[i64], axis: usize) -> i64
    ensures { result ≡ get_or constants.now axis (pos 0) }
{
    constants.get(axis).copied().unwrap_or(0)
}

// The mode of an axis. Of the codes 2 0 and the constants 7 5 axis 1 has Constant(5).
fn mode_at(codes: &[u8], constants: &[i64], axis: usize) -> BorderMode
    ensures { result ≡ mode_at codes.now constants.now axis }
{
    codes::mode_of(code_at(codes, axis), constant_at(constants, axis))
}

// The three modes that the grid calls take.
//
// * `codes` - the border of each axis: 0 constant, 1 mirror, 2 nearest, 3 reflect, 4 wrap.
// * `constants` - the level of each axis's border, which a code of 0 alone reads; a missing one is 0.
//
// The codes 2 0 4 with the constants 7 5 give Nearest, Constant(5) and Wrap.
pub fn modes_of(codes: &[u8], constants: &[i64]) -> [BorderMode; 3]
    ensures { result ≡ modes_of codes.now constants.now }
{
    [
        mode_at(codes, constants, 0),
        mode_at(codes, constants, 1),
        mode_at(codes, constants, 2),
    ]
}

// Whether the border of some axis is unknown.
//
// * `codes` - the border of each axis, as in `modes_of`; those past the axis count are not read, and a missing one is
//   unknown.
// * `shape` - the length of each axis.
//
// The codes 2 9 are unknown of the shape 4 4 and known of the shape 16.
pub fn unknown_any(codes: &[u8], shape: &[usize]) -> bool
    ensures { result ≡ unknown_borders codes.now shape.now }
{
    (0..shape.len()).any(|axis| 4 < code_at(codes, axis))
}
