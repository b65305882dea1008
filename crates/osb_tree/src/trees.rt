ghost use Rattle.std.specs.Prelude.{◌≡◌, ◌≢◌, ◌↔◌, ℕ, ◌+◌, ◌≤◌, List, IfOk, IfErr, OnOk, OnErr, MatchOption, IsTrue, IsFalse, is_some, length, option_copied, if◌then◌else◌};
ghost use Rattle.std.specs.Prelude.{◌<◌, ◌++◌, take, drop};
ghost use Rattle.std.specs.List.Sorted.{IsStrictlySortedBy};
ghost use Rattle.std.specs.Map.{keys_of};
ghost use Rattle.osb_tree.specs.Paths.{path_cmp};
ghost use Rattle.osb_tree.specs.Nodes.{InRange};
ghost use Rattle.osb_tree.specs.Trees.{empty_tree, tree_size, node_at, next_after, put_at, put_fault, parent_fault, takes_over, has_beneath, is_too_large, IsTree, IsWithinLimits};
ghost use Rattle.osb_tree.specs.Laws.{share_at};
ghost use Rattle.osb_tree.specs.Chunks.{chunk_at, chunk_count, chunks_of, pairs_of, AreOfATree, IsMisfit};

use crate::places::{is_beneath, is_directory, weight};
use crate::readings::misfit;
use crate::{CHUNK_PAIRS, Chunk, NoMemory, Node, Path, PutFault, Shared};
use std::alloc::Global;
use std::collections::BTreeMap;
use std::collections::btree_map::Iter;
use std::marker::Model;
use std::ops::Bound;

/// How many paths a tree may have.
pub const MAX_PATHS: usize = 262_144;

/// How large a tree may be, in bytes.
pub const MAX_SIZE: u64 = 268_435_456;

/// A file system in memory. Contracts see what it lists: every path with what stands there, sorted by path.
#[derive(Drop)]
pub struct Tree {
    nodes: BTreeMap<Path, Node>,
    size: u64,
}

impl Model for Tree {
    ghost use Rattle.std.specs.Prelude.{◌≡◌, ℕ, List};
    ghost use Rattle.osb_tree.specs.declared.nodes.Node.{Node};
    ghost use Rattle.osb_tree.specs.Trees.{tree_size, IsTree, IsWithinLimits};

    ghost Value = { List (List (List ℕ) × Node) };

    ghost view = { λ t. t.nodes.entries };

    ghost invariant = { λ t. (t.size ≡ tree_size t.nodes.entries) × IsTree t.nodes.entries × IsWithinLimits t.nodes.entries };
}

impl Tree {
    /// Nothing but a root, of mode 0755 and owned by 0.
    pub fn empty(alloc: Global) -> Result<Self, NoMemory>
        ensures tree { IfOk result (λ tree. tree ≡ empty_tree) }
    {
        let mut nodes = BTreeMap::new(alloc);
        let directory = Node::Dir {
            mode: 0o755,
            uid: 0,
            gid: 0,
        };
        nodes.insert(Path::root(alloc), directory)?;
        Ok(Tree { nodes, size: 65 })
    }

    /// What all paths add up to, in bytes, as `places::weight` counts each.
    pub fn size(&self) -> u64
        ensures size { result ≡ tree_size self.now }
    {
        self.size
    }

    /// How many paths it has: at least one, since a tree has a root.
    pub fn len(&self) -> usize
        ensures count { result ≡ length self.now }
        ensures tree { IsTree self.now }
        ensures limits { IsWithinLimits self.now }
    {
        self.nodes.len()
    }

    /// What stands at the path.
    pub fn get(&self, path: &Path) -> Option<&Node>
        ensures node { option_copied result ≡ node_at self.now path.now }
        ensures tree { IsTree self.now }
    {
        self.nodes.get(path)
    }

    /// Where a walk in path order goes on after a path, which the tree need not have.
    pub fn next_path(&self, after: &Path) -> Result<Option<Path>, NoMemory>
        ensures next { IfOk result (λ next. next ≡ next_after self.now after.now) }
    {
        match self.following(after) {
            Some(next) => Ok(Some(next.clone()?)),
            None => Ok(None),
        }
    }

    /// Puts a node where nothing stands, or in the place of what does. What is beneath a directory stays.
    pub fn put(&mut self, alloc: Global, path: Path, node: Node) -> Result<(), PutFault>
        requires { InRange node }
        ensures ok { OnOk result ((put_fault self.old path node ≡ None) × (self.new ≡ put_at self.old path node)) }
        ensures fault { IfErr result (λ fault. fault ≢ PutFault.NoMemory → put_fault self.old path node ≡ Some fault) }
        ensures err { OnErr result (self.new ≡ self.old) }
    {
        self.check_parent(alloc, &path)?;
        if self.takes_over(&path, &node) {
            return Err(PutFault::NotEmpty);
        }
        let Some(size) = self.size_with(&path, &node) else {
            return Err(PutFault::TooLarge);
        };
        match self.nodes.insert(path, node) {
            Ok(_) => {
                self.size = size;
                Ok(())
            }
            Err(_) => Err(PutFault::NoMemory),
        }
    }

    fn check_parent(&self, alloc: Global, path: &Path) -> Result<(), PutFault>
        ensures ok { OnOk result (parent_fault self.now path.now ≡ None) }
        ensures fault { IfErr result (λ fault. fault ≢ PutFault.NoMemory → parent_fault self.now path.now ≡ Some fault) }
    {
        let Some(parent) = path.parent(alloc)? else {
            return Ok(());
        };
        match self.get(&parent) {
            None => Err(PutFault::ParentMissing),
            Some(node) if is_directory(node) => Ok(()),
            Some(_) => Err(PutFault::ParentNotDir),
        }
    }

    /// Whether what is no directory would take the place of the root, or of what has something beneath it.
    fn takes_over(&self, path: &Path, node: &Node) -> bool
        ensures { result ≡ takes_over self.now path.now node.now }
    {
        !is_directory(node) && (path.names().is_empty() || self.has_beneath(path))
    }

    /// Whatever lies beneath a path follows it directly.
    fn has_beneath(&self, path: &Path) -> bool
        ensures { result ≡ has_beneath self.now path.now }
    {
        self.following(path)
            .is_some_and(|next| is_beneath(path, next))
    }

    /// The size with a node put at a path, where the tree would not be too large.
    fn size_with(&self, path: &Path, node: &Node) -> Option<u64>
        ensures { let after = put_at self.now path.now node.now in MatchOption result (IsTrue (is_too_large after)) (λ size. IsFalse (is_too_large after) × (size ≡ tree_size after)) }
    {
        if !self.has_room_for(path) {
            return None;
        }
        let size = (self.size - self.share_at(path)).saturating_add(weight(path, node));
        (size <= MAX_SIZE).then_some(size)
    }

    fn has_room_for(&self, path: &Path) -> bool
        ensures room { IsTrue result ↔ (length self.now + (if is_some (node_at self.now path.now) then 0 else 1) ≤ 262144) }
        ensures tree { IsTree self.now }
    {
        self.nodes.len() < MAX_PATHS || self.nodes.contains_key(path)
    }

    /// The share in the size of what stands at the path.
    fn share_at(&self, path: &Path) -> u64
        ensures { result ≡ share_at self.now path.now }
    {
        self.nodes.get(path).map_or(0, |node| weight(path, node))
    }

    fn following(&self, after: &Path) -> Option<&Path>
        ensures next { option_copied result ≡ next_after self.now after.now }
        ensures tree { IsTree self.now }
    {
        let greater = (Bound::Excluded(after), Bound::Unbounded);
        let (next, _) = self.nodes.range(greater).next()?;
        Some(next)
    }

    /// How many chunks its listing has.
    pub fn chunks(&self) -> usize
        ensures count { result ≡ chunk_count self.now }
    {
        self.nodes.len().div_ceil(CHUNK_PAIRS)
    }

    /// One of its chunks, by number. This goes over all pairs that stand before it: `all_chunks` gives them all for
    /// the price of one such walk.
    pub fn chunk(&self, alloc: Global, i: usize) -> Result<Chunk, NoMemory>
        requires { i < chunk_count self.now }
        ensures chunk { IfOk result (λ chunk. chunk ≡ chunk_at self.now i) }
    {
        let mut rest = self.nodes.iter();
        for _ in 0..CHUNK_PAIRS * i {
            let _ = rest.next();
        }
        next_chunk(alloc, &mut rest)
    }

    /// All chunks in order, in one walk over the tree.
    pub fn all_chunks(&self, alloc: Global) -> Result<Vec<Shared<Chunk>>, NoMemory>
        ensures chunks { IfOk result (λ chunks. chunks.items ≡ chunks_of self.now) }
    {
        let mut rest = self.nodes.iter();
        let mut chunks = Vec::new(alloc);
        for _ in 0..self.chunks() {
            let chunk = next_chunk(alloc, &mut rest)?;
            chunks.push(Shared::new(alloc, chunk)?)?;
        }
        Ok(chunks)
    }

    /// Whether chunks are those of a tree: nothing where they are. Else the place of the first pair that is wrong,
    /// counted over all pairs from 0; or how many pairs there are, where only the cut is wrong or there is no pair.
    /// This is one walk over the pairs.
    pub fn check(chunks: &[Shared<Chunk>]) -> Option<usize>
        ensures misfit { MatchOption result (AreOfATree chunks.now) (IsMisfit chunks.now) }
    {
        misfit(chunks)
    }

    /// The tree that chunks list.
    pub fn from_chunks(alloc: Global, chunks: &[Shared<Chunk>]) -> Result<Self, NoMemory>
        requires { AreOfATree chunks.now }
        ensures tree { IfOk result (λ tree. tree ≡ pairs_of chunks.now) }
    {
        let mut nodes = BTreeMap::new(alloc);
        let mut size = 0;
        for chunk in chunks {
            add_pairs(&mut nodes, chunk.get().pairs())?;
            size += chunk.get().weight();
        }
        Ok(Tree { nodes, size })
    }

    /// The same tree once more.
    pub fn clone_tree(&self) -> Result<Self, NoMemory>
        ensures tree { IfOk result (λ tree. tree ≡ self.now) }
    {
        Ok(Tree {
            nodes: self.nodes.clone()?,
            size: self.size,
        })
    }
}

/// The next pairs of a walk, as a chunk.
fn next_chunk(alloc: Global, rest: &mut Iter<'_, Path, Node>) -> Result<Chunk, NoMemory>
    requires { tree_size rest.old ≤ 268435456 }
    ensures chunk { IfOk result (λ chunk. chunk ≡ take 256 rest.old) }
    ensures rest { OnOk result (rest.new ≡ drop 256 rest.old) }
{
    let mut pairs = Vec::new(alloc);
    while pairs.len() < CHUNK_PAIRS {
        let Some((path, node)) = rest.next() else {
            break;
        };
        pairs.push((path.clone()?, node.clone()?))?;
    }
    Chunk::from_pairs(pairs)
}

/// Puts pairs behind all that a map holds.
fn add_pairs(nodes: &mut BTreeMap<Path, Node>, pairs: &[(Path, Node)]) -> Result<(), NoMemory>
    requires { IsStrictlySortedBy path_cmp (keys_of (nodes.old.entries ++ pairs.now)) }
    ensures { OnOk result (nodes.new.entries ≡ nodes.old.entries ++ pairs.now) }
{
    for (path, node) in pairs {
        nodes.insert(path.clone()?, node.clone()?)?;
    }
    Ok(())
}
