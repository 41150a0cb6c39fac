// What the program `play` answers, apart from reading and writing: the number and the levels of a file and a text, and
// the bytes that it prints.
#![tactic(auto)]

ghost use Rattle.play_text.specs.First.{FirstBytes};
ghost use Rattle.play_text.specs.Rows.{PlayTextRows};

mod played;
mod printed;

pub use played::answer;
pub use printed::respond;

// The first 119 bytes of a file decide; nothing runs.
pub fn first_bytes()
    ensures { FirstBytes }
{}

// Worked rows of this crate's definitions; nothing runs.
pub fn rows()
    ensures { PlayTextRows }
{}
