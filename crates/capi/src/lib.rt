// Entry points for callers in other languages: every call on numbers and slices, under a name that starts with
// suvvokal_. A border is a code and a constant, a padding mode too (`codes`), and a border for each axis is a slice of
// codes and one of constants (`codes_cells`); a recipe is a list of numbers (`recipe_fields`). Each promise is the
// library's, with one more condition, judged last: a code that names nothing gets 100.
#![tactic(auto)]

mod grids;
mod lines;
mod others;
mod pads;
mod recipes;
