// A kernel as 27 cells.
ghost use Rattle.std.specs.Prelude.{◌≡◌, length};
ghost use Rattle.numbers.specs.Number.{answer_number};
ghost use Rattle.numbers.specs.Refusal.{Answers};
ghost use Rattle.codes.specs.Codes.{kernel_of, unknown_kernel, coded};
ghost use Rattle.codes_cells.specs.Cells.{kernel_cells, cells_judged};

use kernel3d::Kernel3d;
use numbers::Refusal;

// Fills 27 cells with a kernel, the last axis fastest.
fn fill_kernel(kernel: Kernel3d, out: &mut [bool])
    requires { length out.old ≡ 27 }
    ensures { out.new ≡ kernel_cells kernel }
{
    let cells = kernel.generate();
    for i in 0..27 {
        out[i] = cells[i / 9][i / 3 % 3][i % 3];
    }
}

// Fills a lent slice with a kernel of 3 by 3 by 3 cells, the last axis fastest.
//
// * `code` - which kernel: 0 the star, 1 the ball, 2 the full cube.
// * `out` - 27 cells; kept as they were where the call is refused.
//
// Refuses: 2 (length), 100 (unknown code). Of code 0 the cells 4, 10, 12, 13, 14, 16 and 22 are true.
pub fn write_kernel(code: u8, out: &mut [bool]) -> Result<(), Refusal>
    ensures { Answers (coded (cells_judged (length out.old)) (unknown_kernel code))
        (kernel_cells (kernel_of code)) out.old (answer_number result) out.new }
{
    if out.len() != 27 {
        return Err(Refusal::Length);
    }
    if 2 < code {
        return Err(Refusal::Unknown);
    }
    fill_kernel(codes::kernel_of(code), out);
    Ok(())
}
