ghost use Rattle.std.specs.Prelude.{◌≡◌, ◌↔◌, ◌-◌, ◌^◌, ◌<◌, ◌≤◌, min, IsTrue, ◌==◌, IfOk, Some, length, option_map};
ghost use Rattle.std.specs.List.{slice_get};
ghost use Rattle.osb_tree.specs.Trees.{tree_size};
ghost use Rattle.osb_tree.specs.Chunks.{IsChunk};

use crate::places::weight;
use crate::trees::MAX_SIZE;
use crate::{NoMemory, Node, Path};
use std::marker::Model;

/// How many pairs a chunk may have. All but the last of a tree have so many.
pub const CHUNK_PAIRS: usize = 256;

/// A piece of a tree's listing: some paths, each with what stands there. Contracts see the list of the pairs.
#[derive(Debug, Drop)]
pub struct Chunk {
    pairs: Vec<(Path, Node)>,
    weight: u64,
}

impl Model for Chunk {
    ghost use Rattle.std.specs.Prelude.{◌≡◌, ℕ, List};
    ghost use Rattle.osb_tree.specs.declared.nodes.Node.{Node};
    ghost use Rattle.osb_tree.specs.Trees.{tree_size};
    ghost use Rattle.osb_tree.specs.Chunks.{IsChunk};

    ghost Value = { List (List (List ℕ) × Node) };

    ghost view = { λ c. c.pairs.items };

    ghost invariant = { λ c. (c.weight ≡ tree_size c.pairs.items) × IsChunk c.pairs.items };
}

impl Chunk {
    /// Whether these pairs are few and small enough for a chunk.
    pub fn can_have(pairs: &[(Path, Node)]) -> bool
        ensures chunk { IsTrue result ↔ IsChunk pairs.now }
    {
        pairs.len() <= CHUNK_PAIRS && total_weight(pairs) <= MAX_SIZE
    }

    /// The pairs may be any, in any order: `Tree::check` says whether chunks are those of a tree.
    pub fn from_pairs(pairs: Vec<(Path, Node)>) -> Result<Self, NoMemory>
        requires few { length pairs.items ≤ 256 }
        requires small { tree_size pairs.items ≤ 268435456 }
        ensures pairs { IfOk result (λ chunk. chunk ≡ pairs.items) }
    {
        let weight = total_weight(&pairs);
        Ok(Chunk { pairs, weight })
    }

    pub fn len(&self) -> usize
        ensures count { result ≡ length self.now }
        ensures few { result ≤ 256 }
    {
        self.pairs.len()
    }

    pub fn is_empty(&self) -> bool
        ensures empty { result ≡ (length self.now == 0) }
    {
        self.pairs.is_empty()
    }

    pub fn path(&self, i: usize) -> &Path
        requires { i < length self.now }
        ensures path { option_map (λ pair. pair.0) (slice_get self.now i) ≡ Some result.now }
    {
        &self.pairs[i].0
    }

    pub fn node(&self, i: usize) -> &Node
        requires { i < length self.now }
        ensures node { option_map (λ pair. pair.1) (slice_get self.now i) ≡ Some result.now }
    {
        &self.pairs[i].1
    }

    /// Its share of a tree's size, in bytes.
    pub fn weight(&self) -> u64
        ensures weight { result ≡ tree_size self.now }
        ensures small { result ≤ 268435456 }
    {
        self.weight
    }

    pub(crate) fn pairs(&self) -> &[(Path, Node)]
        ensures pairs { result.now ≡ self.now }
        ensures few { length self.now ≤ 256 }
        ensures small { tree_size self.now ≤ 268435456 }
    {
        &self.pairs
    }
}

/// What the pairs add to a size, up to the greatest number.
fn total_weight(pairs: &[(Path, Node)]) -> u64
    ensures { result ≡ min (tree_size pairs.now) (2 ^ 64 - 1) }
{
    let mut total: u64 = 0;
    for (path, node) in pairs {
        total = total.saturating_add(weight(path, node));
    }
    total
}
