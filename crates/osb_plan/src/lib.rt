//! Plans: the tasks that builds of manifests have, each pipeline once.
#![tactic(auto)]

mod builds;
mod chains;
mod marks;
mod plans;
mod stages;
mod tasks;

pub use builds::{Build, ReadyBuild};
pub use plans::plan;
