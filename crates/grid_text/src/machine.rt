// The machine that reads the text of a grid: started, fed part after part, finished.
// Fed the whole text and one line feed more, it has stored every length and every level.
ghost use Rattle.std.specs.Prelude.{◌≡◌};
ghost use Rattle.numbers.specs.Number.{answer_number};
ghost use Rattle.grid_text_spec.specs.Machine.{start_state, machine, byte_fed, fed, finish_of};

use crate::shape::{judge_shape, word_end};
use crate::store::{store_length, store_level};
use grid_text_spec::{TextShape, TextState};
use grid_text_word::{is_empty, is_gap, is_plain, next_byte, no_word, plain_byte};
use numbers::Refusal;

// The state before the first byte: no word was read, and the product of no lengths is 1.
//
// Example: finish(start()) is Length, the refusal of the empty text.
pub fn start() -> TextState
    ensures { result ≡ start_state }
{
    let word = no_word();
    let shape = TextShape {
        words: 0,
        axes: 0,
        cells: 1,
        refused: false,
        faulty: false,
    };
    TextState { word, shape }
}

// The state after one byte.
#[tactic(auto, unfolding(grid_text_spec::specs::Machine::byte_fed, grid_text_spec::specs::Machine::state_after))]
fn step(state: TextState, byte: u8, lengths: &mut [usize], levels: &mut [i64]) -> TextState
    ensures { machine result lengths.new levels.new
        ≡ byte_fed (machine state lengths.old levels.old) byte }
{
    let word = state.word;
    let shape = state.shape;
    if is_plain(word, byte) {
        return TextState {
            word: plain_byte(word, byte),
            shape,
        };
    }
    if is_gap(byte) {
        if is_empty(word) {
            return state;
        }
        store_length(shape, word, lengths);
        store_level(shape, word, levels);
        return TextState {
            word: no_word(),
            shape: word_end(shape, word),
        };
    }
    TextState {
        word: next_byte(word, byte),
        shape,
    }
}

// The state after one part more of the text, which may be cut anywhere.
//
// * `state` - the state after the parts before.
// * `part` - the bytes of this part.
// * `lengths` - the lengths; one whose word ends in this part is stored, where there is room. 3 are enough.
// * `levels` - the levels, likewise. 8,192 are enough.
//
// Example: after start(), the part "1 3 4 -2 7\n" stores the length 3 and the levels 4, -2 and 7.
pub fn feed(state: TextState, part: &[u8], lengths: &mut [usize], levels: &mut [i64]) -> TextState
    ensures { machine result lengths.new levels.new
        ≡ fed (machine state lengths.old levels.old) part.now }
{
    let mut s = state;
    for &byte in part {
        s = step(s, byte, lengths, levels);
    }
    s
}

// What is wrong with the text that was fed, which may end in a word.
//
// * `state` - the state after the whole text.
//
// Refuses: Shape where the count, a length or the product of the lengths is out of range; else Length where a word is
// no number or has over 18 digits, or a word is missing or too many.
// Example: "1 3 4 2 7" is accepted, "9 x" is refused with Shape and "3 1024 1024" with Length.
#[tactic(auto, unfolding(grid_text_spec::specs::Machine::finish_of))]
pub fn finish(state: TextState) -> Result<(), Refusal>
    ensures { answer_number result ≡ finish_of state }
{
    if is_empty(state.word) {
        return judge_shape(state.shape);
    }
    judge_shape(word_end(state.shape, state.word))
}
