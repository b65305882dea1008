//! Rules of effects, on a tree that a stage changes. After a fault nothing is said of the tree, since the stage has
//! none then.
ghost use Rattle.std.specs.Prelude.{◌≡◌, ◌≢◌, Ok, Err, Some, None, IfErr, OnOk, IsFalse};
ghost use Rattle.osb_tree.specs.Nodes.{InRange};
ghost use Rattle.osb_tree.specs.Trees.{IsTree, node_at, takes_over};
ghost use Rattle.osb_stages.specs.Rules.{placed, parent_rule, unless, leaf_fault, with_leaf, with_ancestors, directory};

use crate::modes::Mode;
use osb_tree::places::is_directory;
use osb_tree::{Node, Path, PutFault, StageFault, Tree};
use std::alloc::Global;

/// A directory with owners 0.
pub fn directory(mode: Mode) -> Node
    ensures directory { result ≡ directory mode }
    ensures in_range { InRange result }
{
    Node::Dir {
        mode: mode.bits(),
        uid: 0,
        gid: 0,
    }
}

/// Finds the first ancestor, from the root, that is no directory.
pub fn check_ancestors(alloc: Global, path: &Path, tree: &Tree) -> Result<(), StageFault>
    ensures ok { OnOk result (parent_rule tree.now path.now ≡ None) }
    ensures fault { IfErr result (λ fault. fault ≢ StageFault.NoMemory → parent_rule tree.now path.now ≡ Some fault) }
{
    let Some(parent) = path.parent(alloc)? else {
        return Ok(());
    };
    match tree.get(&parent) {
        None => {
            check_ancestors(alloc, &parent, tree)?;
            Err(StageFault::Missing(parent))
        }
        // Whatever stands in a tree stands in directories.
        Some(node) if is_directory(node) => Ok(()),
        Some(_) => Err(StageFault::NotADir(parent)),
    }
}

/// Puts a node at a path under the parent rule.
pub fn make(alloc: Global, path: &Path, node: Node, tree: &mut Tree) -> Result<(), StageFault>
    requires in_range { InRange node }
    requires fits { IsFalse (takes_over tree.old path.now node) }
    ensures ok { OnOk result (unless (parent_rule tree.old path.now) (placed path.now node tree.old) ≡ Ok tree.new) }
    ensures fault { IfErr result (λ fault. fault ≢ StageFault.NoMemory → unless (parent_rule tree.old path.now) (placed path.now node tree.old) ≡ Err fault) }
{
    check_ancestors(alloc, path, tree)?;
    place(alloc, path, node, tree)
}

/// Puts a file or a link at a path under the write rule: it takes the place of no directory.
pub fn put_leaf(alloc: Global, path: &Path, node: Node, tree: &mut Tree) -> Result<(), StageFault>
    requires in_range { InRange node }
    ensures ok { OnOk result (with_leaf path.now node tree.old ≡ Ok tree.new) }
    ensures fault { IfErr result (λ fault. fault ≢ StageFault.NoMemory → with_leaf path.now node tree.old ≡ Err fault) }
{
    check_ancestors(alloc, path, tree)?;
    check_leaf(path, tree)?;
    place(alloc, path, node, tree)
}

/// Finds a directory where a file or a link is to come.
fn check_leaf(path: &Path, tree: &Tree) -> Result<(), StageFault>
    ensures ok { OnOk result (leaf_fault path.now (node_at tree.now path.now) ≡ None) }
    ensures fault { IfErr result (λ fault. fault ≢ StageFault.NoMemory → leaf_fault path.now (node_at tree.now path.now) ≡ Some fault) }
    ensures tree { IsTree tree.now }
{
    match tree.get(path) {
        Some(node) if is_directory(node) => Err(StageFault::NotAFile(path.clone()?)),
        _ => Ok(()),
    }
}

/// Puts a node at a path that stands in directories.
pub fn place(alloc: Global, path: &Path, node: Node, tree: &mut Tree) -> Result<(), StageFault>
    requires in_range { InRange node }
    requires fits { IsFalse (takes_over tree.old path.now node) }
    requires above { parent_rule tree.old path.now ≡ None }
    ensures ok { OnOk result (placed path.now node tree.old ≡ Ok tree.new) }
    ensures fault { IfErr result (λ fault. fault ≢ StageFault.NoMemory → placed path.now node tree.old ≡ Err fault) }
{
    let Err(fault) = tree.put(alloc, path.clone()?, node) else {
        return Ok(());
    };
    match fault {
        PutFault::NoMemory => Err(StageFault::NoMemory),
        _ => Err(StageFault::TreeTooLarge),
    }
}

/// Makes the directories above a path that are missing, with mode 0755.
pub fn make_ancestors(alloc: Global, path: &Path, tree: &mut Tree) -> Result<(), StageFault>
    ensures ok { OnOk result (with_ancestors path.now tree.old ≡ Ok tree.new) }
    ensures above { OnOk result (parent_rule tree.new path.now ≡ None) }
    ensures fault { IfErr result (λ fault. fault ≢ StageFault.NoMemory → with_ancestors path.now tree.old ≡ Err fault) }
{
    let Some(parent) = path.parent(alloc)? else {
        return Ok(());
    };
    match tree.get(&parent) {
        // Whatever stands in a tree stands in directories.
        Some(node) if is_directory(node) => Ok(()),
        Some(_) => Err(StageFault::NotADir(parent)),
        None => {
            make_ancestors(alloc, &parent, tree)?;
            place(alloc, &parent, directory(Mode::new(0o755)), tree)
        }
    }
}
