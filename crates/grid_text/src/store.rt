// What is lent: the length or the level that a word is, stored in its place where there is room.
ghost use Rattle.std.specs.Prelude.{◌≡◌};
ghost use Rattle.grid_text_spec.specs.Machine.{stored_level, lengths_after, levels_after};

use grid_text_spec::{TextShape, TextWord};
use grid_text_word::capped_size;

// The level that a word is.
fn stored_level(word: TextWord) -> i64
    ensures { result ≡ stored_level word }
{
    let size = capped_size(word.size);
    if word.minus {
        -(size as i64)
    } else {
        size as i64
    }
}

// The word stored as a length, where its place is that of one.
#[tactic(auto, unfolding(grid_text_spec::specs::Machine::lengths_after))]
pub(crate) fn store_length(shape: TextShape, word: TextWord, lengths: &mut [usize])
    ensures { lengths.new ≡ lengths_after shape word lengths.old }
{
    let k = shape.words as usize;
    let n = shape.axes as usize;
    let size = word.size as usize;
    if k == 0 || n < k {
        return;
    }
    let at = k - 1;
    if at < lengths.len() {
        lengths[at] = size;
    }
}

// The word stored as a level, where its place is that of one.
#[tactic(auto, unfolding(grid_text_spec::specs::Machine::levels_after))]
pub(crate) fn store_level(shape: TextShape, word: TextWord, levels: &mut [i64])
    ensures { levels.new ≡ levels_after shape word levels.old }
{
    let k = shape.words as usize;
    let n = shape.axes as usize;
    let level = stored_level(word);
    if k <= n {
        return;
    }
    let at = k - 1 - n;
    if at < levels.len() {
        levels[at] = level;
    }
}
