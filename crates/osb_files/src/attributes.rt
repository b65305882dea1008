//! Modes and owners that a stage gives to what stands at a path, or there and beneath.
ghost use Rattle.std.specs.Prelude.{◌≡◌, IfOk, IfSome, OnOk, IsSome, unwrap_or};
ghost use Rattle.osb_tree.specs.Paths.{is_beneath};
ghost use Rattle.osb_tree.specs.Nodes.{InRange, IsMode, IsOwner};
ghost use Rattle.osb_tree.specs.Trees.{IsTree, node_at, put_at};
ghost use Rattle.osb_files.specs.Attributes.{with_attributes, is_covered, with_attributes_at};

use osb_stages::modes::Mode;
use osb_stages::owners::Owner;
use osb_tree::places::is_beneath;
use osb_tree::{MAX_PATHS, NoMemory, Node, Path, PutFault, Tree};
use std::alloc::{AllocError, Global};

/// What a node gets. What is not given stays as it is.
#[derive(Clone, Copy, Debug)]
pub struct Attributes {
    /// A link has none, and gets none.
    pub mode: Option<Mode>,
    pub uid: Option<Owner>,
    pub gid: Option<Owner>,
}

/// Gives attributes to what stands at a path, and to whatever is beneath it where that is asked for.
pub(crate) fn give(
    alloc: Global,
    given: &Attributes,
    path: &Path,
    recursive: bool,
    tree: &mut Tree,
) -> Result<(), NoMemory>
    requires { IsSome (node_at tree.old path.now) }
    ensures ok { OnOk result (tree.new ≡ with_attributes_at (is_covered path.now recursive) given.now tree.old) }
{
    give_at(alloc, given, path, tree)?;
    if recursive {
        give_beneath(alloc, given, path, tree)?;
    }
    Ok(())
}

/// Goes from path to path, from the first that is greater to the first that is not beneath.
fn give_beneath(
    alloc: Global,
    given: &Attributes,
    path: &Path,
    tree: &mut Tree,
) -> Result<(), NoMemory>
    requires { IsTree tree.old }
    ensures ok { OnOk result (tree.new ≡ with_attributes_at (is_beneath path.now) given.now tree.old) }
{
    let mut after = path.clone()?;
    while let Some(next) = tree.next_path(&after)? {
        if !is_beneath(path, &next) {
            return Ok(());
        }
        give_at(alloc, given, &next, tree)?;
        after = next;
    }
    Ok(())
}

fn give_at(alloc: Global, given: &Attributes, path: &Path, tree: &mut Tree) -> Result<(), NoMemory>
    requires { IsSome (node_at tree.old path.now) }
    ensures ok { OnOk result (IfSome (node_at tree.old path.now) (λ node. tree.new ≡ put_at tree.old path.now (with_attributes given.now node))) }
    ensures tree { OnOk result (IsTree tree.old × IsTree tree.new) }
{
    prove!(tree.len() <= MAX_PATHS);
    let Some(node) = tree.get(path) else {
        unreachable!()
    };
    let node = with_attributes(given, node)?;
    let Err(fault) = tree.put(alloc, path.clone()?, node) else {
        return Ok(());
    };
    match fault {
        PutFault::NoMemory => Err(AllocError),
        // The tree would have the paths and the size that it has.
        _ => unreachable!(),
    }
}

fn with_attributes(given: &Attributes, node: &Node) -> Result<Node, NoMemory>
    requires { InRange node.now }
    ensures node { IfOk result (λ after. after ≡ with_attributes given.now node.now) }
    ensures in_range { IfOk result InRange }
{
    match node {
        Node::Dir { mode, uid, gid } => Ok(Node::Dir {
            mode: mode_of(given, *mode),
            uid: owner_of(given.uid, *uid),
            gid: owner_of(given.gid, *gid),
        }),
        Node::File {
            mode,
            uid,
            gid,
            bytes,
        } => Ok(Node::File {
            mode: mode_of(given, *mode),
            uid: owner_of(given.uid, *uid),
            gid: owner_of(given.gid, *gid),
            bytes: bytes.clone()?,
        }),
        Node::Link { uid, gid, target } => Ok(Node::Link {
            uid: owner_of(given.uid, *uid),
            gid: owner_of(given.gid, *gid),
            target: target.clone()?,
        }),
    }
}

fn mode_of(given: &Attributes, mode: u32) -> u32
    requires { IsMode mode }
    ensures mode { result ≡ unwrap_or given.now.mode mode }
    ensures in_range { IsMode result }
{
    match given.mode {
        Some(mode) => mode.bits(),
        None => mode,
    }
}

fn owner_of(given: Option<Owner>, id: u32) -> u32
    requires { IsOwner id }
    ensures owner { result ≡ unwrap_or given id }
    ensures in_range { IsOwner result }
{
    match given {
        Some(owner) => owner.number(),
        None => id,
    }
}
