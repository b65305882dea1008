//! Recipes: what kinds of stages there are, what each does, and what its tree comes from.
#![tactic(auto)]

mod files_trees;
mod kinds;
pub mod laws;
mod outcomes;
mod plans;
mod recipes;
mod references;
mod running;
mod tables;
mod tools;

pub use files_trees::files_tree;
pub use kinds::{KindFault, StageKind};
pub use outcomes::Outcome;
pub use plans::{Plan, Task};
pub use recipes::Recipe;
pub use references::{InputRecipe, TreeRef};
pub use running::run_stage;
pub use tables::Table;
pub use tools::{Tool, missing_tool};
