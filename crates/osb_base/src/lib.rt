//! The outside, as the builder sees it: where manifests are read, where items are had, where the store is kept, where
//! trees are exported, and where lines are written. Each end is a trait, with objects in memory beside it.
#![tactic(auto)]

mod digests;
mod exporters;
mod failing;
mod faults;
mod fetchers;
mod gates;
mod keepers;
pub mod laws;
mod lookups;
mod shares;
mod shelves;
mod sinks;
mod steps;
mod weights;

pub use digests::{Digest, DigestFault};
pub use exporters::{Exporter, MemExporter, Op, SureExporter};
pub use faults::{Failed, ReadStop, WriteStop};
pub use fetchers::{Fetched, Fetcher, MemFetcher, SureFetcher};
pub use gates::{Gate, OpenGate};
pub use keepers::{Keeper, MemKeeper, SureKeeper};
pub use lookups::{find_item, find_named};
pub use osb_tree::{Bytes, Key, List, Name, NoMemory, Path, TaskNo, Text, WorkerNo};
pub use shares::Share;
pub use shelves::{MOST_FILE_BYTES, MemShelf, Shelf, SureShelf};
pub use sinks::{MemSink, Sink, SureSink};
pub use steps::Steps;
pub use weights::Weighed;
