//! Trees exported into folders.
ghost use Rattle.std.specs.Prelude.{◌≡◌, ◌++◌, [], ◌∷◌, string_bytes, option_map, IsSome, IfSome, OnOk, OnErr, IfOk};
ghost use Rattle.osb_base.specs.Faults.{HasCause};
ghost use Rattle.osb_base.specs.Exports.{after_op};
ghost use Rattle.osb_tree.specs.Trees.{node_at, next_after};
ghost use Rattle.osb_export.specs.Exports.{place_of, op_of, octal, list_line, export_list, Appends, StopsExport};

use osb_base::{Exporter, NoMemory, WriteStop};
use osb_pyjson::py_string;
use osb_tree::{Node, Path, Tree};
use std::alloc::Global;

/// Why a tree is not exported.
#[derive(Clone, Copy, Debug, PartialEq, Eq)]
pub enum ExportFault {
    /// 1: a counted fault of the outside.
    Outside,
    NoMemory,
}

impl From<NoMemory> for ExportFault {
    ghost use Rattle.std.specs.Prelude.{◌≡◌};
    ghost use Rattle.osb_export.specs.declared.exports.ExportFault.TheVariants.{NoMemory};

    ghost from_gives = { λ _ fault. fault ≡ NoMemory };

    fn from(_: NoMemory) -> Self {
        ExportFault::NoMemory
    }
}

/// Exports a tree into a folder: one operation for each path, in path order, and at the end the list. After a fault a
/// first part of these operations is done.
pub fn export<E: Exporter>(
    alloc: Global,
    tree: &Tree,
    folder: &str,
    exporter: &mut E,
) -> Result<(), ExportFault>
    ensures ok { OnOk result (Appends (E.done exporter.old) (E.done exporter.new) (export_list folder.now tree.now)) }
    ensures err { OnErr result (StopsExport (E.done exporter.old) (E.done exporter.new) (export_list folder.now tree.now)) }
    ensures cause { HasCause ExportFault.Outside (E.export_faults exporter.old) (E.export_faults exporter.new) result }
{
    match walk_tree(alloc, tree, folder, exporter) {
        Ok(()) => Ok(()),
        Err(WriteStop::Failed) => Err(ExportFault::Outside),
        Err(WriteStop::NoMemory) => Err(ExportFault::NoMemory),
    }
}

/// Does the operations of an export, one for each path and then the last. After an error a first part of them is done.
fn walk_tree<E: Exporter>(
    alloc: Global,
    tree: &Tree,
    folder: &str,
    exporter: &mut E,
) -> Result<(), WriteStop>
    ensures ok { OnOk result (Appends (E.done exporter.old) (E.done exporter.new) (export_list folder.now tree.now)) }
    ensures err { OnErr result (StopsExport (E.done exporter.old) (E.done exporter.new) (export_list folder.now tree.now)) }
    ensures cause { HasCause WriteStop.Failed (E.export_faults exporter.old) (E.export_faults exporter.new) result }
{
    let mut list = String::new(alloc);
    let mut next = Some(Path::root(alloc));
    for _ in 0..tree.len() {
        let path = match next {
            Some(path) => path,
            None => unreachable!(),
        };
        next = export_path(alloc, tree, folder, &path, &mut list, exporter)?;
    }
    exporter.finish(alloc, folder, list.as_bytes())
}

/// Exports what stands at a path of the tree, adds its line to the list, and gives the next path. After an error
/// nothing was done.
fn export_path<E: Exporter>(
    alloc: Global,
    tree: &Tree,
    folder: &str,
    path: &Path,
    list: &mut String,
    exporter: &mut E,
) -> Result<Option<Path>, WriteStop>
    requires { IsSome (node_at tree.now path.now) }
    ensures next { IfOk result (λ next. next ≡ next_after tree.now path.now) }
    ensures line { OnOk result (IfSome (node_at tree.now path.now) (λ node. string_bytes list.new ≡ string_bytes list.old ++ list_line (path.now, node))) }
    ensures done { OnOk result (IfSome (node_at tree.now path.now) (λ node. Appends (E.done exporter.old) (E.done exporter.new) (op_of folder.now (path.now, node) ∷ []))) }
    ensures err { OnErr result (E.done exporter.new ≡ E.done exporter.old) }
    ensures cause { HasCause WriteStop.Failed (E.export_faults exporter.old) (E.export_faults exporter.new) result }
{
    let node = match tree.get(path) {
        Some(node) => node,
        None => unreachable!(),
    };
    let next = tree.next_path(path)?;
    let line = list_line(alloc, path, node)?;
    list.push_str(line.as_str())?;
    export_node(alloc, folder, path, node, exporter)?;
    Ok(next)
}

fn export_node<E: Exporter>(
    alloc: Global,
    folder: &str,
    path: &Path,
    node: &Node,
    exporter: &mut E,
) -> Result<(), WriteStop>
    ensures done { E.done exporter.new ≡ option_map (after_op result (op_of folder.now (path.now, node.now))) (E.done exporter.old) }
    ensures cause { HasCause WriteStop.Failed (E.export_faults exporter.old) (E.export_faults exporter.new) result }
{
    let place = place_of(alloc, folder, path)?;
    let place = place.as_str();
    match node {
        Node::Dir { mode, uid, gid } => exporter.dir(alloc, place, *mode, *uid, *gid),
        Node::File {
            mode,
            uid,
            gid,
            bytes,
        } => exporter.file(alloc, place, *mode, *uid, *gid, bytes.as_slice()),
        Node::Link { uid, gid, target } => {
            exporter.link(alloc, place, *uid, *gid, target.as_str())
        }
    }
}

/// Where a path of the tree is exported.
fn place_of(alloc: Global, folder: &str, path: &Path) -> Result<String, NoMemory>
    ensures { IfOk result (λ place. string_bytes place ≡ place_of folder.now path.now) }
{
    let mut place = format!(in alloc; "{folder}/tree")?;
    for name in path.names() {
        place.push('/')?;
        place.push_str(name.as_str())?;
    }
    Ok(place)
}

/// The line of a path in the list.
fn list_line(alloc: Global, path: &Path, node: &Node) -> Result<String, NoMemory>
    ensures { IfOk result (λ line. string_bytes line ≡ list_line (path.now, node.now)) }
{
    let path = py_string(alloc, path.text(alloc)?.as_str())?;
    let path = path.as_str();
    match node {
        Node::Dir { mode, uid, gid } => {
            let mode = octal(alloc, *mode)?;
            format!(in alloc; "d {mode} {uid} {gid} {path}\n")
        }
        Node::File {
            mode,
            uid,
            gid,
            bytes,
        } => {
            let mode = octal(alloc, *mode)?;
            let length = bytes.len();
            format!(in alloc; "f {mode} {uid} {gid} {path} {length}\n")
        }
        Node::Link { uid, gid, target } => {
            let target = py_string(alloc, target.as_str())?;
            let target = target.as_str();
            format!(in alloc; "l 0777 {uid} {gid} {path} {target}\n")
        }
    }
}

/// A mode in four octal digits.
fn octal(alloc: Global, mode: u32) -> Result<String, NoMemory>
    ensures { IfOk result (λ digits. string_bytes digits ≡ octal mode) }
{
    let thousands = mode / 512 % 8;
    let hundreds = mode / 64 % 8;
    let tens = mode / 8 % 8;
    let ones = mode % 8;
    format!(in alloc; "{thousands}{hundreds}{tens}{ones}")
}
