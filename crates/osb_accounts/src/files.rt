//! Account files of a tree.
ghost use Rattle.std.specs.Prelude.{◌≡◌, ◌≢◌, ◌==◌, ◌&&◌, not, is_some, length, Some, Ok, Err, IfErr, IfOk, OnOk};
ghost use Rattle.osb_tree.specs.Accounts.{account_path};
ghost use Rattle.osb_tree.specs.Nodes.{InRange, IsMode};
ghost use Rattle.osb_tree.specs.Trees.{node_at};
ghost use Rattle.osb_accounts.specs.Files.{new_mode, lines_read, lines_of_node, lines_at, file_node, written};
ghost use Rattle.osb_accounts.specs.Users.{accounts_at, all_written};

use crate::Lines;
use osb_stages::rules::put_leaf;
use osb_tree::accounts::{AccountFile, account_check};
use osb_tree::{Node, Path, StageFault, Tree};
use std::alloc::Global;

/// The three account files.
#[derive(Debug, Drop)]
pub struct Accounts {
    pub passwd: Lines,
    pub group: Lines,
    pub shadow: Lines,
}

impl Accounts {
    /// Those of a tree: a file that is not there has no lines.
    pub fn read(alloc: Global, tree: &Tree) -> Result<Self, StageFault>
        ensures accounts { result ≢ Err StageFault.NoMemory → result ≡ accounts_at tree.now }
    {
        let passwd = read_lines(alloc, AccountFile::Passwd, tree)?;
        let group = read_lines(alloc, AccountFile::Group, tree)?;
        let shadow = read_lines(alloc, AccountFile::Shadow, tree)?;
        Ok(Accounts {
            passwd,
            group,
            shadow,
        })
    }

    pub fn write(&self, alloc: Global, tree: &mut Tree) -> Result<(), StageFault>
        ensures ok { OnOk result (all_written self.now tree.old ≡ Ok tree.new) }
        ensures fault { IfErr result (λ fault. fault ≢ StageFault.NoMemory → all_written self.now tree.old ≡ Err fault) }
    {
        write_lines(alloc, AccountFile::Passwd, &self.passwd, tree)?;
        write_lines(alloc, AccountFile::Group, &self.group, tree)?;
        write_lines(alloc, AccountFile::Shadow, &self.shadow, tree)
    }
}

/// The lines of a file. One that is not there has none.
pub fn read_lines(alloc: Global, file: AccountFile, tree: &Tree) -> Result<Lines, StageFault>
    ensures lines { result ≢ Err StageFault.NoMemory → result ≡ lines_at file tree.now }
{
    let path = file.path(alloc)?;
    match tree.get(&path) {
        None => Ok(Lines::empty(alloc)),
        Some(Node::File { bytes, .. }) => lines_read(alloc, file, path, bytes.as_slice()),
        Some(_) => Err(StageFault::NotAFile(path)),
    }
}

fn lines_read(
    alloc: Global,
    file: AccountFile,
    path: Path,
    bytes: &[u8],
) -> Result<Lines, StageFault>
    requires { path ≡ account_path file }
    ensures { result ≢ Err StageFault.NoMemory → result ≡ lines_read file bytes.now }
{
    match account_check(file, bytes) {
        Some(line) => Err(StageFault::BadLine(path, line)),
        None => Ok(Lines::read(alloc, bytes)?),
    }
}

/// Writes the lines. A file that is there keeps its mode and owners.
pub fn write_lines(
    alloc: Global,
    file: AccountFile,
    lines: &Lines,
    tree: &mut Tree,
) -> Result<(), StageFault>
    ensures ok { OnOk result (written file lines.now tree.old ≡ Ok tree.new) }
    ensures fault { IfErr result (λ fault. fault ≢ StageFault.NoMemory → written file lines.now tree.old ≡ Err fault) }
{
    let path = file.path(alloc)?;
    if is_needless(lines, &path, tree) {
        return Ok(());
    }
    let node = file_node(alloc, file, lines, &path, tree)?;
    put_leaf(alloc, &path, node, tree)
}

/// A file that is not there is made where it has lines.
fn is_needless(lines: &Lines, path: &Path, tree: &Tree) -> bool
    ensures { result ≡ (not (is_some (node_at tree.now path.now)) && length lines.now == 0) }
{
    tree.get(path).is_none() && lines.as_slice().is_empty()
}

/// The file with its lines.
fn file_node(
    alloc: Global,
    file: AccountFile,
    lines: &Lines,
    path: &Path,
    tree: &Tree,
) -> Result<Node, StageFault>
    requires { path.now ≡ account_path file }
    ensures node { result ≢ Err StageFault.NoMemory → result ≡ file_node file lines.now (node_at tree.now path.now) }
    ensures in_range { IfOk result InRange }
{
    match tree.get(path) {
        Some(node) => changed_file(alloc, file, lines, path, node),
        None => Ok(Node::File {
            mode: new_mode(file),
            uid: 0,
            gid: 0,
            bytes: lines.text(alloc)?,
        }),
    }
}

/// The file that is there with its lines.
fn changed_file(
    alloc: Global,
    file: AccountFile,
    lines: &Lines,
    path: &Path,
    node: &Node,
) -> Result<Node, StageFault>
    requires path { path.now ≡ account_path file }
    requires in_range { InRange node.now }
    ensures node { result ≢ Err StageFault.NoMemory → result ≡ file_node file lines.now (Some node.now) }
    ensures in_range { IfOk result InRange }
{
    let Node::File { mode, uid, gid, .. } = node else {
        return Err(StageFault::NotAFile(path.clone()?));
    };
    Ok(Node::File {
        mode: *mode,
        uid: *uid,
        gid: *gid,
        bytes: lines.text(alloc)?,
    })
}

fn new_mode(file: AccountFile) -> u32
    ensures mode { result ≡ new_mode file }
    ensures in_range { IsMode result }
{
    match file {
        AccountFile::Passwd | AccountFile::Group => 0o644,
        AccountFile::Shadow => 0o600,
    }
}
