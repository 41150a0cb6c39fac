// Whole numbers as text in ASCII: what a token is, and which digits a number has: the definitions and their laws.
// `text` has the code.
#![tactic(auto)]

ghost use Rattle.text_spec.specs.Back.{ReadsBack};
ghost use Rattle.text_spec.specs.Rows.{TextSpecRows};

// Reading what was written gives the number back; nothing runs.
pub fn reads_back()
    ensures { ReadsBack }
{}

// Worked rows about the definitions that the contracts cite; nothing runs.
pub fn rows()
    ensures { TextSpecRows }
{}
