use osb_base::{List, Text};
use osb_ident::Checkpoint;

/// What a run is asked for.
#[derive(Drop)]
pub struct Settings {
    /// The name of the file that keeps the store; without one nothing is loaded or saved.
    pub store: Option<Text>,
    /// The folder that trees are exported to.
    pub output: Text,
    /// The most bytes that the cache counts, 2^62 at most.
    pub limit: u64,
    /// 1 to 64.
    pub workers: u32,
    /// The names of the pipelines to export, each once.
    pub exports: List<Text>,
    pub checkpoints: List<Checkpoint>,
    /// Folders that have items.
    pub mirrors: List<Text>,
    /// Whether the log is written.
    pub log: bool,
    /// The names of 1 to 256 manifests.
    pub manifests: List<Text>,
}
