//! The whole runs: manifests built over a store and exported, and a look at a manifest's identifiers.
#![tactic(auto)]

mod builds;
mod inspects;
mod over;
mod prepares;
mod runs;
mod starts;
mod stops;
mod stores;
mod writes;

pub use inspects::inspect;
pub use over::run_serial_over;
pub use runs::{Status, run_serial};
pub use starts::{LoadedStore, RunSettings};
