//! The board of a plan's tasks: which wait, which run, and what came of those that are done.
#![tactic(auto)]

mod boards;
pub mod laws;
mod places;
mod tasks;

pub use boards::Board;
pub use tasks::{Claim, Task, TaskState};
