//! What stands at a path, as a line of a case file.

use osb_base::{NoMemory, Op};
use osb_tree::Node;
use std::alloc::Global;

pub fn op_line(alloc: Global, op: &Op) -> Result<String, NoMemory> {
    match op {
        Op::Dir {
            path,
            mode,
            uid,
            gid,
        } => dir_line(alloc, path.as_str(), *mode, *uid, *gid),
        Op::File {
            path,
            mode,
            uid,
            gid,
            bytes,
        } => file_line(alloc, path.as_str(), *mode, *uid, *gid, bytes.len()),
        Op::Link {
            path,
            uid,
            gid,
            target,
        } => link_line(alloc, path.as_str(), *uid, *gid, target.as_str()),
        Op::Finish { folder, .. } => format!(in alloc; "finish {}", folder.as_str()),
    }
}

pub fn node_line(alloc: Global, path: &str, node: &Node) -> Result<String, NoMemory> {
    match node {
        Node::Dir { mode, uid, gid } => dir_line(alloc, path, *mode, *uid, *gid),
        Node::File {
            mode,
            uid,
            gid,
            bytes,
        } => file_line(alloc, path, *mode, *uid, *gid, bytes.len()),
        Node::Link { uid, gid, target } => link_line(alloc, path, *uid, *gid, target.as_str()),
    }
}

fn dir_line(alloc: Global, path: &str, mode: u32, uid: u32, gid: u32) -> Result<String, NoMemory> {
    format!(in alloc; "dir {path} {mode:04o} {uid} {gid}")
}

fn file_line(
    alloc: Global,
    path: &str,
    mode: u32,
    uid: u32,
    gid: u32,
    length: usize,
) -> Result<String, NoMemory> {
    format!(in alloc; "file {path} {mode:04o} {uid} {gid} {length}")
}

fn link_line(
    alloc: Global,
    path: &str,
    uid: u32,
    gid: u32,
    target: &str,
) -> Result<String, NoMemory> {
    format!(in alloc; "link {path} {uid} {gid} {target}")
}
