// Cells of a list copied to other places of it by steps: from one cell to the next the place that is read stays, moves
// one on or one back. So the rims of a lane read its own cells, under each border.
ghost use Rattle.std.specs.Prelude.{◌≡◌, pos, length};
ghost use Rattle.std.specs.Float.{nan};
ghost use Rattle.pad_line.specs.Steps.{StepNeeds, step_set};

// Copies cells to the `count` places from `at` on. The first is the one at `from`; from one to the next the place that
// is read moves `up` places on and `down` back.
//
// Supposes `StepNeeds`. Of 9 9 1 2 3, two places from 0 on, from place 3 and one back each: 2 1 1 2 3.
#[tactic(auto, using(crate::proofs::StepByStep::step_turn))]
pub fn copy_steps(up: usize, down: usize, from: usize, at: usize, count: usize, out: &mut [i64])
    requires { StepNeeds up down from at count (length out.old) }
    ensures { out.new ≡ step_set (pos 0) up down from at count out.old }
{
    for j in 0..count {
        out[at + j] = out[from + up * j - down * j];
    }
}

// As `copy_steps`, of floats.
#[tactic(auto, using(crate::proofs::StepByStep::step_turn))]
pub fn copy_steps_f64(up: usize, down: usize, from: usize, at: usize, count: usize, out: &mut [f64])
    requires { StepNeeds up down from at count (length out.old) }
    ensures { out.new ≡ step_set nan up down from at count out.old }
{
    for j in 0..count {
        out[at + j] = out[from + up * j - down * j];
    }
}
