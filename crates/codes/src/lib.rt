// What the codes of the entry points (`capi`) and the words of requests (`ndimage`) name, and the last condition: a
// code that names nothing. A word's place in its table is its code.
#![tactic(auto)]

ghost use Rattle.std.specs.Prelude.{◌≡◌, cond, eqb};
ghost use Rattle.numbers.specs.Number.{answer_number};
ghost use Rattle.codes.specs.Codes.{mode_of, mode_of_f64, padding_of, kernel_of, code_of};
ghost use Rattle.codes.specs.Words.{border_words, pad_words, kernel_words, class_words};
ghost use Rattle.codes.specs.Rows.{CodesRows};
ghost use Rattle.words.specs.Words.{words_of, place_in};

use border::{BorderMode, BorderModeF64, PadMode};
use kernel3d::Kernel3d;
use numbers::Refusal;
use symmetry_spec::SymmetryState;

// The border of a code. 1 is Mirror; 9, which names none, is Nearest.
#[tactic(auto, unfolding(crate::specs::Codes::mode_of))]
pub fn mode_of(code: u8, constant: i64) -> BorderMode
    ensures { result ≡ mode_of code constant }
{
    match code {
        0 => BorderMode::Constant(constant),
        1 => BorderMode::Mirror,
        3 => BorderMode::Reflect,
        4 => BorderMode::Wrap,
        _ => BorderMode::Nearest,
    }
}

// The same of floats.
#[tactic(auto, unfolding(crate::specs::Codes::mode_of_f64))]
pub fn mode_of_f64(code: u8, constant: f64) -> BorderModeF64
    ensures { result ≡ mode_of_f64 code constant }
{
    match code {
        0 => BorderModeF64::Constant(constant),
        1 => BorderModeF64::Mirror,
        3 => BorderModeF64::Reflect,
        4 => BorderModeF64::Wrap,
        _ => BorderModeF64::Nearest,
    }
}

// The padding mode of a code. 6 is Reflect; 9, which names none, is Edge.
#[tactic(auto, unfolding(crate::specs::Codes::padding_of))]
pub fn pad_mode_of(code: u8, constant: i64) -> PadMode
    ensures { result ≡ padding_of code constant }
{
    match code {
        0 => PadMode::Constant(constant),
        2 => PadMode::Maximum,
        3 => PadMode::Mean,
        4 => PadMode::Median,
        5 => PadMode::Minimum,
        6 => PadMode::Reflect,
        7 => PadMode::Symmetric,
        8 => PadMode::Wrap,
        _ => PadMode::Edge,
    }
}

// The kernel of a code. 1 is Ball; 9, which names none, is Full.
#[tactic(auto, unfolding(crate::specs::Codes::kernel_of))]
pub fn kernel_of(code: u8) -> Kernel3d
    ensures { result ≡ kernel_of code }
{
    match code {
        0 => Kernel3d::Star,
        1 => Kernel3d::Ball,
        _ => Kernel3d::Full,
    }
}

// The code of a symmetry class. Symmetric is 1.
pub fn code_of(class: SymmetryState) -> u8
    ensures { result ≡ code_of class }
{
    match class {
        SymmetryState::NonSymmetric => 0,
        SymmetryState::Symmetric => 1,
        SymmetryState::AntiSymmetric => 2,
    }
}

// The code of a border's word. mirror is Some(1), and circle is None.
#[tactic(auto, unfolding(words::specs::Words::column_from))]
pub fn border_code(token: &[u8]) -> Option<usize>
    ensures { result ≡ place_in border_words token.now }
{
    words::find_word(token, b"constant mirror nearest reflect wrap ")
}

// The code of a padding mode's word. edge is Some(1).
#[tactic(auto, unfolding(words::specs::Words::column_from))]
pub fn pad_code(token: &[u8]) -> Option<usize>
    ensures { result ≡ place_in pad_words token.now }
{
    words::find_word(
        token,
        b"constant edge maximum mean median minimum reflect symmetric wrap ",
    )
}

// The code of a kernel's word. ball is Some(1).
#[tactic(auto, unfolding(words::specs::Words::column_from))]
pub fn kernel_code(token: &[u8]) -> Option<usize>
    ensures { result ≡ place_in kernel_words token.now }
{
    words::find_word(token, b"star ball full ")
}

// The words of symmetry classes as a table, in the order of their codes.
#[tactic(auto, unfolding(words::specs::Words::column_from))]
pub fn class_words() -> [u8; 37]
    ensures { words_of result ≡ class_words }
{
    *b"NonSymmetric Symmetric AntiSymmetric "
}

// The number of a call with an unknown code, which is judged last. Of 11 it is 11, of 0 it is 100.
pub fn unknown_after(refusal: u8) -> u8
    ensures { result ≡ cond (eqb refusal 0) 100 refusal }
{
    if refusal == 0 {
        Refusal::Unknown as u8
    } else {
        refusal
    }
}

// The same of an answer: what the call refuses, else Unknown. Of Reach it is Reach, of an accepted call Unknown.
pub fn or_unknown(judged: Result<(), Refusal>) -> Result<(), Refusal>
    ensures { answer_number result ≡ cond (eqb (answer_number judged) 0) 100 (answer_number judged) }
{
    judged?;
    Err(Refusal::Unknown)
}

// Worked rows of codes and words: what each names, and the number of a code that names nothing.
pub fn rows()
    ensures { CodesRows }
{}
