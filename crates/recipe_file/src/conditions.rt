// Conditions 13, 14 and 15 of a refusal.
ghost use Rattle.std.specs.Prelude.{◌≡◌, ◌≤◌, take};
ghost use Rattle.numbers.specs.Lists.{any_of};
ghost use Rattle.numbers.specs.Number.{answer_number};
ghost use Rattle.numbers.specs.Refusal.{refusal_of};
ghost use Rattle.recipe_spec.specs.Recipes.{bad_mark, bad_step_count, bad_step_constant, bad_step_origin, bad_step};
ghost use Rattle.recipe_spec.specs.Recipes.{recipe_judged};

use numbers::Refusal;
use recipe_spec::Step;

// Condition 13: under 6 bytes, or another mark or version than LKS and 1.
#[tactic(auto, unfolding(recipe_spec::specs::Recipes::bad_mark))]
pub(crate) fn bad_mark(file: &[u8]) -> bool
    ensures { result ≡ bad_mark file.now }
{
    file.len() < 6
        || file[0] != 76
        || file[1] != 75
        || file[2] != 83
        || file[3] != 0
        || file[4] != 1
}

// Condition 14: a count outside 1..16, or bytes of another length than 6 + 7 * count.
#[tactic(auto, unfolding(recipe_spec::specs::Recipes::bad_step_count))]
pub(crate) fn bad_step_count(count: u8, len: usize) -> bool
    ensures { result ≡ bad_step_count count len }
{
    !(1..=16).contains(&count) || len != 6 + 7 * usize::from(count)
}

// A constant other than 0 under another border than constant.
#[tactic(auto, unfolding(recipe_spec::specs::Recipes::bad_step_constant))]
fn bad_step_constant(s: Step) -> bool
    ensures { result ≡ bad_step_constant s }
{
    s.border != 0 && s.constant != 0
}

// An origin other than 0 of a uniform step.
#[tactic(auto, unfolding(recipe_spec::specs::Recipes::bad_step_origin))]
fn bad_step_origin(s: Step) -> bool
    ensures { result ≡ bad_step_origin s }
{
    s.kind == 2 && s.origin != 0
}

// Condition 15 of one step.
#[tactic(auto, unfolding(recipe_spec::specs::Recipes::bad_step))]
fn bad_step(s: Step) -> bool
    ensures { result ≡ bad_step s }
{
    2 < s.kind || 4 < s.border || bad_step_constant(s) || bad_step_origin(s)
}

// Condition 15: some step of the first `count` is bad.
pub(crate) fn bad_steps(count: u8, steps: [Step; 16]) -> bool
    requires { count ≤ 16 }
    ensures { result ≡ any_of bad_step (take count steps) }
{
    steps[..usize::from(count)].iter().any(|s| bad_step(*s))
}

// The number that writing a recipe gets: `write_recipe` without its bytes.
//
// * `count` - how many of the steps the recipe has.
// * `steps` - the steps; those past the count are not looked at.
// * `len` - how many bytes are lent.
//
// Refuses: 14 (count), 15 (step). Of one step 0 0 2 0 2 0 it is 0 where 13 bytes are lent, 14 where 12 are.
pub fn judge_recipe(count: u8, steps: [Step; 16], len: usize) -> Result<(), Refusal>
    ensures { answer_number result ≡ refusal_of (recipe_judged count steps len) }
{
    if bad_step_count(count, len) {
        return Err(Refusal::Count);
    }
    if bad_steps(count, steps) {
        return Err(Refusal::Step);
    }
    Ok(())
}
