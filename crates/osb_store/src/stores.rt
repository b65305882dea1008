use osb_cache::Stored;
use osb_recipe::Table;
use osb_tree::{Chunk, List};

/// Recipes with the blobs that they use, and trees of some of them, first the one that was used first.
#[derive(Drop)]
pub struct Store {
    pub table: Table,
    pub entries: List<Stored<Chunk>>,
}
