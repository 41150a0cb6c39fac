// A file played over the grid of a text: the number and the levels.
ghost use Rattle.std.specs.Prelude.{◌≡◌, ◌||◌, ltb};
ghost use Rattle.numbers.specs.Number.{answer_number};
ghost use Rattle.grid_text_spec.specs.Machine.{machine};
ghost use Rattle.play_text.specs.PlayText.{PlayedFrom};

use grid_text_spec::TextState;
use numbers::Refusal;

// Whether a lent length is too short for the axes or the cells of a grid.
fn lacks_room(
    axes: usize,
    cells: usize,
    lengths: usize,
    levels: usize,
    out: usize,
    second: usize,
) -> bool
    ensures { result ≡ ltb lengths axes || (ltb levels cells || (ltb out cells || ltb second cells)) }
{
    lengths < axes || levels < cells || out < cells || second < cells
}

// Plays a file over the grid of a text that was fed to the machine of `grid_text`, and one line feed after it.
//
// * `file` - the bytes of the file, whatever they are; of a longer one the first 119 are enough.
// * `state`, `lengths`, `levels` - what the machine has left. It was lent at least 3 lengths and 8,192 levels.
// * `out` - at least 8,192 cells; the levels stand at its front, and a refused call keeps it as it was.
// * `second` - at least 8,192 cells, for what is left between steps; as many as there are levels are 0 after an
//   accepted call, and a refused one keeps it as it was.
//
// Refuses: 13 (mark), 14 (count), 15 (step) of the file; then 1 (shape) and 2 (length) of the text; then 3 (level);
// then the number of the first step that its call refuses: 5 (kernel), 7 (origin), 8 (axis), 11 (reach). A lent grid
// that is too short gives 2.
// Example: "1 3 4 2 7" under the one step 0 0 2 0 2 0 0 leaves 4 2 2, and the answer is 0.
pub fn answer(
    file: &[u8],
    state: TextState,
    lengths: &[usize],
    levels: &[i64],
    out: &mut [i64],
    second: &mut [i64],
) -> Result<(), Refusal>
    ensures { PlayedFrom file.now (machine state lengths.now levels.now)
        out.old second.old (answer_number result) out.new second.new }
{
    recipe_file::read_recipe(file)?;
    grid_text::finish(state)?;
    let shape = state.shape;
    let axes = shape.axes as usize;
    let cells = shape.cells as usize;
    if lacks_room(
        axes,
        cells,
        lengths.len(),
        levels.len(),
        out.len(),
        second.len(),
    ) {
        return Err(Refusal::Length);
    }
    recipe_play::play(
        file,
        &levels[..cells],
        &lengths[..axes],
        &mut out[..cells],
        &mut second[..cells],
    )
}
