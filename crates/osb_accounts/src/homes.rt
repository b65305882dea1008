//! Homes of users, and who may log in there.
ghost use Rattle.std.specs.Prelude.{◌≡◌, ◌≢◌, ℕ, ◌++◌, ◌+◌, Ok, Err, Some, None, IfErr, IfOk, OnOk, IsTrue, if◌then◌else◌};
ghost use Rattle.osb_tree.specs.Accounts.{account_path};
ghost use Rattle.osb_tree.specs.Nodes.{InRange};
ghost use Rattle.osb_tree.specs.Paths.{is_name};
ghost use Rattle.osb_tree.specs.Trees.{node_at};
ghost use Rattle.std.specs.Str.{is_utf8};
ghost use Rattle.std.specs.Option.{option_map};
ghost use Rattle.osb_tree.specs.declared.nodes.Node.TheVariants.{Dir, File};
ghost use Rattle.osb_tree.specs.declared.accounts.AccountFile.TheVariants.{Passwd};
ghost use Rattle.osb_tree.specs.declared.faults.StageFault.TheVariants.{BadLine};
ghost use Rattle.osb_stages.specs.Rules.{in_order};
ghost use Rattle.osb_accounts.specs.Homes.{keys_of, with_own_directory, within, with_last_line_ended, key_lines, key_node, with_key_lines, with_keys, home_path, with_home_of, with_home};

use crate::pieces::copied;
use crate::texts::LineText;
use crate::users::User;
use crate::{Line, Lines};
use osb_stages::owners::{AccountName, Owner};
use osb_stages::rules::{make_ancestors, place, put_leaf};
use osb_tree::accounts::AccountFile;
use osb_tree::places::is_directory;
use osb_tree::{Bytes, List, Name, NoMemory, Node, Path, PathFault, StageFault, Tree};
use std::alloc::Global;
use std::str;

/// Makes the homes of users in order. Whose line came after the kept ones is new.
pub(crate) fn make_homes(
    alloc: Global,
    kept: usize,
    lines: &Lines,
    users: &[(AccountName, User)],
    tree: &mut Tree,
) -> Result<(), StageFault>
    ensures ok { OnOk result (in_order (with_home kept lines.now) users.now tree.old ≡ Ok tree.new) }
    ensures fault { IfErr result (λ fault. fault ≢ StageFault.NoMemory → in_order (with_home kept lines.now) users.now tree.old ≡ Err fault) }
{
    for user in users {
        make_home(alloc, kept, lines, user, tree)?;
    }
    Ok(())
}

fn make_home(
    alloc: Global,
    kept: usize,
    lines: &Lines,
    entry: &(AccountName, User),
    tree: &mut Tree,
) -> Result<(), StageFault>
    ensures ok { OnOk result (with_home kept lines.now entry.now tree.old ≡ Ok tree.new) }
    ensures fault { IfErr result (λ fault. fault ≢ StageFault.NoMemory → with_home kept lines.now entry.now tree.old ≡ Err fault) }
{
    let (name, user) = entry;
    let Some(place) = lines.place_of(name.as_str().as_bytes()) else {
        return Ok(());
    };
    let keys = keys_of(alloc, user)?;
    if kept <= place || !keys.as_slice().is_empty() {
        prove!(place < lines.as_slice().len());
        let number = place as u64 + 1;
        make_home_of(alloc, number, lines.line_at(place), keys.as_slice(), tree)
    } else {
        Ok(())
    }
}

/// The keys of a user, in the order in which they are written.
fn keys_of(alloc: Global, user: &User) -> Result<List<Bytes>, NoMemory>
    ensures { IfOk result (λ keys. keys ≡ keys_of user.now) }
{
    let mut keys = Vec::new(alloc);
    if let Some(key) = &user.key {
        let key = copied(alloc, key.as_bytes())?;
        keys.push(key)?;
    }
    add_keys(alloc, user.keys.as_slice(), &mut keys)?;
    Ok(List::new(keys))
}

fn add_keys(alloc: Global, more: &[LineText], keys: &mut Vec<Bytes>) -> Result<(), NoMemory>
    ensures { OnOk result (keys.new.items ≡ keys.old.items ++ more.now) }
{
    for key in more {
        keys.push(copied(alloc, key.as_bytes())?)?;
    }
    Ok(())
}

/// Makes the home of the user of a line, whose number counts from 1.
fn make_home_of(
    alloc: Global,
    number: u64,
    line: &Line,
    keys: &[Bytes],
    tree: &mut Tree,
) -> Result<(), StageFault>
    ensures ok { OnOk result (with_home_of number line.now keys.now tree.old ≡ Ok tree.new) }
    ensures fault { IfErr result (λ fault. fault ≢ StageFault.NoMemory → with_home_of number line.now keys.now tree.old ≡ Err fault) }
{
    let home = home_path(alloc, number, line)?;
    let uid = line.owner_at(2);
    let gid = line.owner_at(3);
    make_own_directory(alloc, uid, gid, &home, tree)?;
    make_keys(alloc, uid, gid, keys, &home, tree)
}

/// The home that a line says.
fn home_path(alloc: Global, number: u64, line: &Line) -> Result<Path, StageFault>
    ensures { result ≢ Err StageFault.NoMemory → result ≡ home_path number line.now }
{
    let Some(text) = utf8_text(line.field(5)) else {
        return Err(bad_line(alloc, number));
    };
    match Path::read(alloc, text) {
        Ok(home) => Ok(home),
        Err(PathFault::NoMemory) => Err(StageFault::NoMemory),
        Err(_) => Err(bad_line(alloc, number)),
    }
}

fn utf8_text(bytes: &[u8]) -> Option<&str>
    ensures { option_map (λ text. text.now) result ≡ (if is_utf8 bytes.now then Some bytes.now else None) }
{
    match str::from_utf8(bytes) {
        Ok(text) => Some(text),
        Err(_) => None,
    }
}

/// Makes a directory for a user alone where nothing stands.
fn make_own_directory(
    alloc: Global,
    uid: Owner,
    gid: Owner,
    path: &Path,
    tree: &mut Tree,
) -> Result<(), StageFault>
    ensures ok { OnOk result (with_own_directory uid gid path.now tree.old ≡ Ok tree.new) }
    ensures fault { IfErr result (λ fault. fault ≢ StageFault.NoMemory → with_own_directory uid gid path.now tree.old ≡ Err fault) }
{
    match tree.get(path) {
        Some(node) if is_directory(node) => Ok(()),
        Some(_) => Err(StageFault::NotADir(path.clone()?)),
        None => {
            make_ancestors(alloc, path, tree)?;
            place(alloc, path, own_directory(uid, gid), tree)
        }
    }
}

fn own_directory(uid: Owner, gid: Owner) -> Node
    ensures directory { result ≡ Dir 448 uid gid }
    ensures in_range { InRange result }
{
    Node::Dir {
        mode: 0o700,
        uid: uid.number(),
        gid: gid.number(),
    }
}

/// The path of what is called so in a directory.
fn within(alloc: Global, path: &Path, name: &str) -> Result<Path, StageFault>
    requires { IsTrue (is_name name.now) }
    ensures { result ≢ Err StageFault.NoMemory → result ≡ within path.now name.now }
{
    let name = Name::new(alloc, name)?;
    match path.join(alloc, &[name]) {
        Ok(path) => Ok(path),
        Err(PathFault::NoMemory) => Err(StageFault::NoMemory),
        Err(_) => Err(StageFault::TreeTooLarge),
    }
}

/// Makes the file of keys in a home, where there are keys.
fn make_keys(
    alloc: Global,
    uid: Owner,
    gid: Owner,
    keys: &[Bytes],
    home: &Path,
    tree: &mut Tree,
) -> Result<(), StageFault>
    ensures ok { OnOk result (with_keys uid gid keys.now home.now tree.old ≡ Ok tree.new) }
    ensures fault { IfErr result (λ fault. fault ≢ StageFault.NoMemory → with_keys uid gid keys.now home.now tree.old ≡ Err fault) }
{
    if keys.is_empty() {
        return Ok(());
    }
    let directory = within(alloc, home, ".ssh")?;
    make_own_directory(alloc, uid, gid, &directory, tree)?;
    let path = within(alloc, &directory, "authorized_keys")?;
    add_key_lines(alloc, uid, gid, keys, &path, tree)
}

/// Writes the keys after what the file has.
fn add_key_lines(
    alloc: Global,
    uid: Owner,
    gid: Owner,
    keys: &[Bytes],
    path: &Path,
    tree: &mut Tree,
) -> Result<(), StageFault>
    ensures ok { OnOk result (with_key_lines uid gid keys.now path.now tree.old ≡ Ok tree.new) }
    ensures fault { IfErr result (λ fault. fault ≢ StageFault.NoMemory → with_key_lines uid gid keys.now path.now tree.old ≡ Err fault) }
{
    let node = key_node(alloc, uid, gid, keys, path, tree)?;
    put_leaf(alloc, path, node, tree)
}

/// The file of keys, with more of them.
fn key_node(
    alloc: Global,
    uid: Owner,
    gid: Owner,
    keys: &[Bytes],
    path: &Path,
    tree: &Tree,
) -> Result<Node, StageFault>
    ensures node { result ≢ Err StageFault.NoMemory → result ≡ key_node uid gid keys.now path.now (node_at tree.now path.now) }
    ensures in_range { IfOk result InRange }
{
    match tree.get(path) {
        Some(node) => changed_keys(alloc, keys, path, node),
        None => Ok(new_keys(alloc, uid, gid, keys)?),
    }
}

/// The file of keys that is there, with more of them.
fn changed_keys(alloc: Global, keys: &[Bytes], path: &Path, node: &Node) -> Result<Node, StageFault>
    requires { InRange node.now }
    ensures node { (uid gid : ℕ) → result ≢ Err StageFault.NoMemory → result ≡ key_node uid gid keys.now path.now (Some node.now) }
    ensures in_range { IfOk result InRange }
{
    let Node::File {
        mode,
        uid,
        gid,
        bytes,
    } = node
    else {
        return Err(StageFault::NotAFile(path.clone()?));
    };
    Ok(Node::File {
        mode: *mode,
        uid: *uid,
        gid: *gid,
        bytes: more_keys(alloc, bytes.as_slice(), keys)?,
    })
}

fn new_keys(alloc: Global, uid: Owner, gid: Owner, keys: &[Bytes]) -> Result<Node, NoMemory>
    ensures node { IfOk result (λ node. node ≡ File 384 uid gid (key_lines keys.now)) }
    ensures in_range { IfOk result InRange }
{
    let mut text = Vec::new(alloc);
    write_keys(&mut text, keys)?;
    Ok(Node::File {
        mode: 0o600,
        uid: uid.number(),
        gid: gid.number(),
        bytes: Bytes::new(text),
    })
}

/// A text with the keys after it.
fn more_keys(alloc: Global, bytes: &[u8], keys: &[Bytes]) -> Result<Bytes, NoMemory>
    ensures { IfOk result (λ text. text ≡ with_last_line_ended bytes.now ++ key_lines keys.now) }
{
    let mut text = bytes.to_vec(alloc)?;
    if !bytes.is_empty() && bytes[bytes.len() - 1] != b'\n' {
        text.push(b'\n')?;
    }
    write_keys(&mut text, keys)?;
    Ok(Bytes::new(text))
}

fn write_keys(out: &mut Vec<u8>, keys: &[Bytes]) -> Result<(), NoMemory>
    ensures { OnOk result (out.new.items ≡ out.old.items ++ key_lines keys.now) }
{
    for key in keys {
        out.extend_from_slice(key.as_slice())?;
        out.push(b'\n')?;
    }
    Ok(())
}

/// The fault of a user's line that says no home.
fn bad_line(alloc: Global, number: u64) -> StageFault
    ensures { result ≢ StageFault.NoMemory → result ≡ BadLine (account_path Passwd) number }
{
    match AccountFile::Passwd.path(alloc) {
        Ok(path) => StageFault::BadLine(path, number),
        Err(_) => StageFault::NoMemory,
    }
}
