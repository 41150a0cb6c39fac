// The text of a grid, read byte by byte: what is kept between two bytes, and as definitions the text by its words, its
// conditions and the machine that reads it. `grid_text` has the code.
#![tactic(auto)]

ghost use Rattle.grid_text_spec.specs.Texts.{GridTexts};
ghost use Rattle.grid_text_spec.specs.Rows.{GridTextSpecRows};

// The word that is being read.
//
// * `minus` - it starts with a minus.
// * `odd` - a byte after the minus is no digit.
// * `digits` - how many bytes stand after the minus, at most 19.
// * `size` - their value, at most 10^18.
#[derive(Clone, Copy)]
pub struct TextWord {
    pub minus: bool,
    pub odd: bool,
    pub digits: u8,
    pub size: u64,
}

// What the words before it say.
//
// * `words` - how many they are, at most 9,000.
// * `axes` - the axis count, or 0 where it is no number or is refused.
// * `cells` - the product of the lengths, at most 8,193; 0 where one is no number.
// * `refused` - the count or a length is out of range.
// * `faulty` - a word is no number, or has over 18 digits.
#[derive(Clone, Copy)]
pub struct TextShape {
    pub words: u32,
    pub axes: u8,
    pub cells: u32,
    pub refused: bool,
    pub faulty: bool,
}

// What is kept of the bytes before.
//
// * `word` - the word that is being read.
// * `shape` - what the words before it say.
#[derive(Clone, Copy)]
pub struct TextState {
    pub word: TextWord,
    pub shape: TextShape,
}

// What feeding and finishing say of every text; nothing runs.
pub fn grid_texts()
    ensures { GridTexts }
{}

// Worked rows of this crate's definitions; nothing runs.
pub fn rows()
    ensures { GridTextSpecRows }
{}
