// The median of a mask, symmetry classes, and common kernels.
ghost use Rattle.std.specs.Prelude.{◌≡◌, length};
ghost use Rattle.numbers.specs.Refusal.{Answers};
ghost use Rattle.median_spec.specs.Around.{median_answer};
ghost use Rattle.median_spec.specs.Judge.{median_judged};
ghost use Rattle.symmetry_spec.specs.Class.{class_z, class_f};
ghost use Rattle.codes.specs.Codes.{kernel_of, unknown_kernel, coded, code_of};
ghost use Rattle.codes_cells.specs.Cells.{kernel_cells, cells_judged};

// The median of each cell and its neighbours on three axes; the call `median_filter`.
//
// * `mask` - the cells of the grid, in row-major order.
// * `shape` - the length of each axis.
// * `out` - as long as mask; kept as it was where the call is refused.
//
// Refuses: 1 (shape), 2 (length), 4 (single cell). Of 2 by 2 by 2 cells of which four are true every cell is true.
#[unsafe(no_mangle)]
pub extern "C" fn suvvokal_median_filter(mask: &[bool], shape: &[usize], out: &mut [bool]) -> u8
    ensures { Answers (median_judged shape.now (length mask.now)
        (length out.old)) (median_answer shape.now mask.now) out.old result
        out.new }
{
    numbers::answer_number(median::median_filter(mask, shape, out))
}

// The symmetry class of whole weights: 0 NonSymmetric, 1 Symmetric, 2 AntiSymmetric.
//
// * `weights` - the kernel's weights along one axis, any number of them.
//
// Of 1 2 5 -2 -1 it is 2.
#[unsafe(no_mangle)]
pub extern "C" fn suvvokal_symmetry_state_i64(weights: &[i64]) -> u8
    ensures { result ≡ code_of (class_z weights.now) }
{
    codes::code_of(symmetry::symmetry_state_i64(weights))
}

// As `suvvokal_symmetry_state_i64`, of float weights: a pair differs by more than 2^-52. Of 0, 1 and 2^-53 it is 1.
#[unsafe(no_mangle)]
pub extern "C" fn suvvokal_symmetry_state_f64(weights: &[f64]) -> u8
    ensures { result ≡ code_of (class_f weights.now) }
{
    codes::code_of(symmetry::symmetry_state_f64(weights))
}

// Fills a lent slice with a kernel of 3 by 3 by 3 cells, the last axis fastest.
//
// * `code` - which kernel: 0 the star, 1 the ball, 2 the full cube.
// * `out` - 27 cells; kept as they were where the call is refused.
//
// Refuses: 2 (length), 100 (unknown code). Of code 0 the cells 4, 10, 12, 13, 14, 16 and 22 are true.
#[unsafe(no_mangle)]
pub extern "C" fn suvvokal_kernel3d(code: u8, out: &mut [bool]) -> u8
    ensures { Answers (coded (cells_judged (length out.old)) (unknown_kernel code))
        (kernel_cells (kernel_of code)) out.old result out.new }
{
    numbers::answer_number(codes_cells::write_kernel(code, out))
}
