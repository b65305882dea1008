ghost use Rattle.std.specs.Prelude.{◌≡◌, ◌≢◌, ◌-◌, ◌^◌, ℕ, List, IfOk, IfErr, OnOk, OnErr, None, Some, min, length, option_copied};
ghost use Rattle.std.specs.Ordering.{is_le};
ghost use Rattle.std.specs.List.{position_or_len};
ghost use Rattle.osb_tree.specs.Paths.{path_cmp};
ghost use Rattle.osb_tree.specs.Trees.{empty_tree, tree_size, node_at, next_after, put_at, put_fault, parent_fault, takes_over, has_beneath, is_too_large};

use osb_tree::places::{is_beneath, is_directory, weight};
use osb_tree::{MAX_PATHS, MAX_SIZE, NoMemory, Node, Path, PutFault};
use std::alloc::Global;
use std::marker::Model;

/// A file system in memory, kept as nothing but the sorted list of what it has.
#[derive(Drop)]
pub struct PlainTree {
    entries: Vec<(Path, Node)>,
}

impl Model for PlainTree {
    ghost use Rattle.std.specs.Prelude.{ℕ, List};
    ghost use Rattle.osb_tree.specs.declared.nodes.Node.{Node};

    ghost Value = { List (List (List ℕ) × Node) };

    ghost view = { λ t. t.entries.items };
}

impl Clone for PlainTree {
    ghost is_clone = { λ x y. y ≡ x };

    fn clone(&self) -> Result<Self, NoMemory> {
        Ok(PlainTree {
            entries: self.entries.clone()?,
        })
    }
}

impl PlainTree {
    /// Nothing but a root, of mode 0755 and owned by 0.
    pub fn empty(alloc: Global) -> Result<Self, NoMemory>
        ensures tree { IfOk result (λ tree. tree ≡ empty_tree) }
    {
        let directory = Node::Dir {
            mode: 0o755,
            uid: 0,
            gid: 0,
        };
        let mut entries = Vec::new(alloc);
        entries.push((Path::root(alloc), directory))?;
        Ok(PlainTree { entries })
    }

    /// In bytes, up to the greatest number.
    pub fn size(&self) -> u64
        ensures size { result ≡ min (tree_size self.now) (2 ^ 64 - 1) }
    {
        let mut size = 0u64;
        for (path, node) in &self.entries {
            size = size.saturating_add(weight(path, node));
        }
        size
    }

    pub fn len(&self) -> usize
        ensures length { result ≡ length self.now }
    {
        self.entries.len()
    }

    /// What stands at the path.
    pub fn get(&self, path: &Path) -> Option<&Node>
        ensures node { option_copied result ≡ node_at self.now path.now }
    {
        for (held, node) in &self.entries {
            if path == held {
                return Some(node);
            }
        }
        None
    }

    /// Where a walk in path order goes on after a path, which the tree need not have.
    pub fn next_path(&self, after: &Path) -> Option<&Path>
        ensures next { option_copied result ≡ next_after self.now after.now }
    {
        for (path, _) in &self.entries {
            if after < path {
                return Some(path);
            }
        }
        None
    }

    /// Puts a node where nothing stands, or in the place of what does. What is beneath a directory stays.
    pub fn put(&mut self, alloc: Global, path: Path, node: Node) -> Result<(), PutFault>
        ensures ok { OnOk result ((put_fault self.old path node ≡ None) × (self.new ≡ put_at self.old path node)) }
        ensures fault { IfErr result (λ fault. fault ≢ PutFault.NoMemory → put_fault self.old path node ≡ Some fault) }
        ensures err { OnErr result (self.new ≡ self.old) }
    {
        self.check_parent(alloc, &path)?;
        if self.takes_over(&path, &node) {
            return Err(PutFault::NotEmpty);
        }
        let mut after = self.clone()?;
        after.insert(path, node)?;
        if after.is_too_large() {
            return Err(PutFault::TooLarge);
        }
        *self = after;
        Ok(())
    }

    fn check_parent(&self, alloc: Global, path: &Path) -> Result<(), PutFault>
        ensures ok { OnOk result (parent_fault self.now path.now ≡ None) }
        ensures fault { IfErr result (λ fault. fault ≢ PutFault.NoMemory → parent_fault self.now path.now ≡ Some fault) }
    {
        let Some(parent) = path.parent(alloc)? else {
            return Ok(());
        };
        match self.get(&parent) {
            None => Err(PutFault::ParentMissing),
            Some(node) if is_directory(node) => Ok(()),
            Some(_) => Err(PutFault::ParentNotDir),
        }
    }

    /// Whether what is no directory would take the place of the root, or of what has something beneath it.
    fn takes_over(&self, path: &Path, node: &Node) -> bool
        ensures { result ≡ takes_over self.now path.now node.now }
    {
        !is_directory(node) && (path.names().is_empty() || self.has_beneath(path))
    }

    fn has_beneath(&self, path: &Path) -> bool
        ensures { result ≡ has_beneath self.now path.now }
    {
        self.entries.iter().any(|(held, _)| is_beneath(path, held))
    }

    fn insert(&mut self, path: Path, node: Node) -> Result<(), NoMemory>
        ensures { OnOk result (self.new ≡ put_at self.old path node) }
    {
        let place = self.place(&path);
        if place < self.entries.len() && path == self.entries[place].0 {
            self.entries[place] = (path, node);
        } else {
            self.entries.insert(place, (path, node))?;
        }
        Ok(())
    }

    /// How many paths stand before the given one.
    fn place(&self, path: &Path) -> usize
        ensures { result ≡ position_or_len (λ entry. is_le (path_cmp path.now entry.0)) self.now }
    {
        self.entries
            .iter()
            .position(|(held, _)| path <= held)
            .unwrap_or(self.entries.len())
    }

    fn is_too_large(&self) -> bool
        ensures { result ≡ is_too_large self.now }
    {
        self.entries.len() > MAX_PATHS || self.size() > MAX_SIZE
    }
}
