//! Which entries of a cache leave to make room: the least recently used of those that nobody reads.
#![tactic(auto)]

mod choices;
pub mod laws;
mod lines;

pub use choices::victims;
pub use lines::{Line, Victims};
