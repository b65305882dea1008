//! The stages of tasks, run one after another with the trees that they need.
#![tactic(auto)]

mod ready;
mod runs;
mod stages;

pub use runs::{keep_tree, last_of, nothing_found, run_tasks};
pub use stages::{Made, stage_at};
