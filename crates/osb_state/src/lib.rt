//! What workers share, as numbers and lists: what each action replies and leaves, what it keeps, and the runs of logs
//! and schedules.
#![tactic(auto)]

pub mod laws;
mod opened;

pub use opened::Opened;
