// What the program `play` prints, as bytes.
ghost use Rattle.std.specs.Prelude.{◌≡◌, [], ◌∷◌, pos};
ghost use Rattle.grid_text_spec.specs.Machine.{machine};
ghost use Rattle.grid_text_spec.specs.Lines.{lines_in, lines_count};
ghost use Rattle.play_text.specs.PlayText.{PrintedFrom};

use crate::played::answer;
use grid_text_spec::TextState;

// A refusal number as a line.
fn write_number(number: u8, text: &mut [u8]) -> usize
    ensures value { result ≡ lines_count (pos number ∷ []) text.old }
    ensures text_after { text.new ≡ lines_in (pos number ∷ []) text.old }
{
    grid_text::write_lines(&[i64::from(number)], text)
}

// Plays a file over the grid of a text, as `answer` does, and writes what the program prints: one level a line, or the
// refusal number alone. Answers how many bytes that are.
//
// * `file`, `state`, `lengths`, `levels`, `out`, `second` - as of `answer`.
// * `text` - at least 172,032 bytes, 21 for each of 8,192 levels; what is printed stands at its front, and what stands
//   behind it stays.
//
// Refuses: nothing; the number that `answer` gives is printed.
// Example: "1 3 4 2 7" under the one step 0 0 2 0 2 0 0 prints "4\n2\n2\n"; an empty file prints "13\n".
pub fn respond(
    file: &[u8],
    state: TextState,
    lengths: &[usize],
    levels: &[i64],
    out: &mut [i64],
    second: &mut [i64],
    text: &mut [u8],
) -> usize
    ensures { PrintedFrom file.now (machine state lengths.now levels.now)
        out.old second.old text.old result out.new second.new
        text.new }
{
    let number = numbers::answer_number(answer(file, state, lengths, levels, out, second));
    if number != 0 {
        return write_number(number, text);
    }
    let shape = state.shape;
    let cells = shape.cells as usize;
    if out.len() < cells {
        return 0;
    }
    grid_text::write_lines(&out[..cells], text)
}
