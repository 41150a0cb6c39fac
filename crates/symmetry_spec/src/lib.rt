// The symmetry class of a kernel: whether its weights mirror each other around the middle one. Here are the definitions
// and their laws; `symmetry` has the code.
#![tactic(auto)]

ghost use Rattle.symmetry_spec.specs.Rows.{SymmetrySpecRows};

#[derive(Clone, Copy)]
pub enum SymmetryState {
    // An even length, or a mirrored pair differs and one differs up to sign.
    NonSymmetric,
    // An odd length, and no mirrored pair differs.
    Symmetric,
    // An odd length, a mirrored pair differs, and none differs up to sign.
    AntiSymmetric,
}

// Worked rows about the definitions that the contracts cite; nothing runs.
pub fn rows()
    ensures { SymmetrySpecRows }
{}
