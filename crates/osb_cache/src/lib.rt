//! The cache of what was built before: entries by key, pinned while they are read, staged until they are whole, and
//! evicted where there is no room.
#![tactic(auto)]

mod answers;
mod caches;
mod evictions;
pub mod laws;
mod slots;
mod stages;

pub use answers::{Look, Pin, Reserve, Stored, Ticket};
pub use caches::Cache;
