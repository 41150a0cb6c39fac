// Recipe files: the reader, the writer and its judge.
#![tactic(auto)]

mod conditions;
mod reader;
mod writer;

pub use conditions::judge_recipe;
pub use reader::read_recipe;
pub use writer::write_recipe;
