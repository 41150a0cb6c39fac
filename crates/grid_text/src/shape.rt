// What the words that ended say: the axis count, the product of the lengths, and the number of a text that ends here.
ghost use Rattle.std.specs.Prelude.{◌≡◌};
ghost use Rattle.numbers.specs.Number.{answer_number};
ghost use Rattle.numbers.specs.Refusal.{refusal_of};
ghost use Rattle.grid_text_spec.specs.Machine.{one_more, axes_after, cells_after, count_end, length_end, level_end, word_end};
ghost use Rattle.grid_text_spec.specs.Machine.{large_shape, shape_judged};

use grid_text_spec::{TextShape, TextWord};
use grid_text_word::{is_broken, is_out, is_wrong};
use numbers::Refusal;

// The limits of a length and of the product, as 64-bit numbers.
const LONGEST_AXIS: u64 = numbers::LONGEST_AXIS as u64;

const MOST_CELLS: u64 = numbers::MOST_CELLS as u64;

// One over each: no larger one need be told apart.
const LENGTH_CAP: u64 = LONGEST_AXIS + 1;

const CELL_CAP: u64 = MOST_CELLS + 1;

// More words than an accepted text has.
const WORD_CAP: u32 = 9000;

// One word more, at most 9,000.
fn one_more(words: u32) -> u32
    ensures { result ≡ one_more words }
{
    words.saturating_add(1).min(WORD_CAP)
}

// The axis count that a word is, or 0 where it is none.
#[tactic(auto, unfolding(grid_text_spec::specs::Machine::axes_after))]
fn axes_after(word: TextWord) -> u8
    ensures { result ≡ axes_after word }
{
    if is_broken(word) || is_out(1, 3, word) {
        return 0;
    }
    word.size.min(3) as u8
}

// The product with one length more, at most 8,193; 0 where the length is no number.
#[tactic(auto, unfolding(grid_text_spec::specs::Machine::cells_after))]
fn cells_after(cells: u32, word: TextWord) -> u32
    ensures { result ≡ cells_after cells word }
{
    if is_broken(word) {
        return 0;
    }
    let size = word.size.min(LENGTH_CAP);
    (u64::from(cells) * size).min(CELL_CAP) as u32
}

// The shape after the word of the count.
fn count_end(shape: TextShape, word: TextWord) -> TextShape
    ensures { result ≡ count_end shape word }
{
    TextShape {
        words: one_more(shape.words),
        axes: axes_after(word),
        refused: shape.refused || is_out(1, 3, word),
        faulty: shape.faulty || is_wrong(word),
        ..shape
    }
}

// The shape after the word of a length.
fn length_end(shape: TextShape, word: TextWord) -> TextShape
    ensures { result ≡ length_end shape word }
{
    TextShape {
        words: one_more(shape.words),
        cells: cells_after(shape.cells, word),
        refused: shape.refused || is_out(1, LONGEST_AXIS, word),
        faulty: shape.faulty || is_wrong(word),
        ..shape
    }
}

// The shape after the word of a level.
fn level_end(shape: TextShape, word: TextWord) -> TextShape
    ensures { result ≡ level_end shape word }
{
    TextShape {
        words: one_more(shape.words),
        faulty: shape.faulty || is_wrong(word),
        ..shape
    }
}

// The shape after a word, by its place.
#[tactic(auto, unfolding(grid_text_spec::specs::Machine::word_end))]
pub(crate) fn word_end(shape: TextShape, word: TextWord) -> TextShape
    ensures { result ≡ word_end shape word }
{
    if shape.words == 0 {
        count_end(shape, word)
    } else if shape.words <= u32::from(shape.axes) {
        length_end(shape, word)
    } else {
        level_end(shape, word)
    }
}

// Whether all lengths were read and their product is over 8,192.
#[tactic(auto, unfolding(grid_text_spec::specs::Machine::large_shape))]
fn is_large(shape: TextShape) -> bool
    ensures { result ≡ large_shape shape }
{
    u32::from(shape.axes) < shape.words && MOST_CELLS < u64::from(shape.cells)
}

// What is wrong with a text that ends after these words.
pub(crate) fn judge_shape(shape: TextShape) -> Result<(), Refusal>
    ensures { answer_number result ≡ refusal_of (shape_judged shape) }
{
    if shape.refused || is_large(shape) {
        return Err(Refusal::Shape);
    }
    let asked = 1 + u64::from(shape.axes) + u64::from(shape.cells);
    if shape.faulty || u64::from(shape.words) != asked {
        return Err(Refusal::Length);
    }
    Ok(())
}
