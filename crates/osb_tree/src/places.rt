//! Paths and nodes as a tree has them.
ghost use Rattle.std.specs.Prelude.{◌≡◌, ◌-◌, ◌^◌, ◌≤◌, min, length};
ghost use Rattle.osb_tree.specs.Paths.{path_text, is_beneath};
ghost use Rattle.osb_tree.specs.Nodes.{is_directory, content_length};
ghost use Rattle.osb_tree.specs.Trees.{weight};

use crate::{Node, Path};

/// Whether the other path lies beneath the path.
pub fn is_beneath(path: &Path, other: &Path) -> bool
    ensures beneath { result ≡ is_beneath path.now other.now }
{
    path.names().len() < other.names().len() && other.names().starts_with(path.names())
}

pub fn is_directory(node: &Node) -> bool
    ensures directory { result ≡ is_directory node.now }
{
    matches!(node, Node::Dir { .. })
}

/// The share of a path in the size of a tree, up to the greatest number.
pub fn weight(path: &Path, node: &Node) -> u64
    ensures weight { result ≡ min (weight (path.now, node.now)) (2 ^ 64 - 1) }
{
    (64 + text_length(path)).saturating_add(content_length(node))
}

fn text_length(path: &Path) -> u64
    ensures length { result ≡ length (path_text path.now) }
    ensures short { result ≤ 4096 }
{
    if path.names().is_empty() {
        return 1;
    }
    let mut length = 0;
    for name in path.names() {
        length += 1 + name.as_str().len() as u64;
    }
    length
}

fn content_length(node: &Node) -> u64
    ensures { result ≡ content_length node.now }
{
    match node {
        Node::Dir { .. } => 0,
        Node::File { bytes, .. } => bytes.len() as u64,
        Node::Link { target, .. } => target.as_str().len() as u64,
    }
}
