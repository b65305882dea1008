//! Builds over a store: the store opened, their plan, and what its run by one worker leaves.
#![tactic(auto)]

mod runs;
mod stores;

pub use runs::{BuiltPlan, build_serial};
pub use stores::open_store;
