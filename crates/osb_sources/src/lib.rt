//! Source items: bytes that a manifest lists by their digests.
#![tactic(auto)]

mod answers;
mod asking;
mod gathering;
mod items;
pub mod laws;
mod notes;
mod own;
mod replies;

pub use answers::SourceAnswer;
pub use gathering::gather;
pub use items::Items;
