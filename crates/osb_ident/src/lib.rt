//! Identifiers of stages, and what stands on them: which trees are kept, and the text of `inspect`.
#![tactic(auto)]

mod checkpoints;
mod hashing;
mod ids;
mod inputs;
mod inspect;
pub mod laws;
#[cfg(test)]
mod tests;

pub use checkpoints::{Checkpoint, marks};
pub use ids::{Ids, stage_ids};
pub use inspect::inspect_text;
