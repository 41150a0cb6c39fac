// Recipes as plain numbers, for callers without structs: files read into 97 numbers, the count and six a step, and
// numbers, six a step, written as files.
#![tactic(auto)]

mod ranges;
mod reader;
mod steps;
mod writer;

ghost use Rattle.recipe_fields.specs.Back.{FieldsBack};
ghost use Rattle.recipe_fields.specs.Rows.{RecipeFieldsRows};

pub use reader::read_fields;
pub use writer::write_fields;

// Writing the numbers that were read from a file gives the file again.
pub fn fields_back()
    ensures { FieldsBack }
{}

// Worked rows of this crate's definitions.
pub fn rows()
    ensures { RecipeFieldsRows }
{}
