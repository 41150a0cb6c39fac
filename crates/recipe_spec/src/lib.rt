// Recipes: a step, what the reader hands over, and as definitions the file, its conditions and the player.
#![tactic(auto)]

ghost use Rattle.recipe_spec.specs.Back.{RoundTrips};
ghost use Rattle.recipe_spec.specs.Before.{JudgedBefore};
ghost use Rattle.recipe_spec.specs.Rows.{RecipeSpecRows};

// One step of a recipe.
//
// * `kind` - 0 minimum, 1 maximum, 2 uniform.
// * `axis` - the axis that is swept.
// * `length` - the cells of a window.
// * `origin` - how far the window is moved; 0 of a uniform step.
// * `border` - 0 constant, 1 mirror, 2 nearest, 3 reflect, 4 wrap.
// * `constant` - 0 under every border but constant.
//
// `kind` and `border` are bytes and no enums: a step may hold any byte there, and writing it refuses those with 15.
#[derive(Clone, Copy)]
pub struct Step {
    pub kind: u8,
    pub axis: u8,
    pub length: u8,
    pub origin: i8,
    pub border: u8,
    pub constant: i16,
}

// The recipe of a file: how many steps there are, and the steps; past the count they are all 0.
#[derive(Clone, Copy)]
pub struct Recipe {
    pub count: u8,
    pub steps: [Step; 16],
}

// Reading what was written gives it back, and writing what was read gives the same bytes.
pub fn round_trips()
    ensures { RoundTrips }
{}

// The number that the steps get before any is played is the number that the first refused call gets in its place.
pub fn judged_before()
    ensures { JudgedBefore }
{}

// Worked rows of this crate's definitions.
pub fn rows()
    ensures { RecipeSpecRows }
{}
