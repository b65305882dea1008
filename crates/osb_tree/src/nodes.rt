ghost use Rattle.std.specs.Prelude.{◌↔◌, IsTrue};
ghost use Rattle.osb_tree.specs.Nodes.{InRange, IsMode, IsOwner, IsTarget};

use crate::names::has_nul;
use crate::{Bytes, Text};

/// What stands at a path of a tree. Modes are the permission bits, 0 to octal 7777; a link has none of its own.
#[derive(Clone, Debug, Drop, PartialEq, Eq)]
pub enum Node {
    Dir {
        mode: u32,
        uid: u32,
        gid: u32,
    },
    File {
        mode: u32,
        uid: u32,
        gid: u32,
        bytes: Bytes,
    },
    Link {
        uid: u32,
        gid: u32,
        target: Text,
    },
}

impl Node {
    /// Whether mode, owners and target are in their ranges.
    pub fn in_range(&self) -> bool
        ensures in_range { IsTrue result ↔ InRange self.now }
    {
        match self {
            Node::Dir { mode, uid, gid } => is_mode(*mode) && are_owners(*uid, *gid),
            Node::File { mode, uid, gid, .. } => is_mode(*mode) && are_owners(*uid, *gid),
            Node::Link { uid, gid, target } => are_owners(*uid, *gid) && is_target(target.as_str()),
        }
    }
}

fn is_mode(mode: u32) -> bool
    ensures { IsTrue result ↔ IsMode mode }
{
    mode <= 0o7777
}

fn are_owners(uid: u32, gid: u32) -> bool
    ensures { IsTrue result ↔ (IsOwner uid × IsOwner gid) }
{
    uid != u32::MAX && gid != u32::MAX
}

fn is_target(target: &str) -> bool
    ensures { IsTrue result ↔ IsTarget target.now }
{
    !target.is_empty() && target.len() <= 4095 && !has_nul(target)
}
