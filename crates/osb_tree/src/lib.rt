//! The lowest layer: texts, paths, nodes and trees, as every other crate sees them.
#![tactic(auto)]

pub mod accounts;
mod chunks;
mod faults;
pub mod laws;
mod lists;
mod names;
mod nodes;
mod numbers;
mod paths;
pub mod places;
mod readings;
mod shares;
mod texts;
mod trees;

pub use chunks::{CHUNK_PAIRS, Chunk};
pub use faults::{Inputs, OptionFault, PathFault, PutFault, StageFault};
pub use lists::List;
pub use names::Name;
pub use nodes::Node;
pub use numbers::{Key, TaskNo, WorkerNo};
pub use paths::Path;
pub use shares::Shared;
use std::alloc::AllocError;
pub use texts::{Bytes, Text};
pub use trees::{MAX_PATHS, MAX_SIZE, Tree};

/// Want of memory: the one error of a call that can fail for nothing else.
pub type NoMemory = AllocError;
