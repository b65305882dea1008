//! `org.osbuild.copy`: copies files, links and whole directories out of the trees of its inputs.
ghost use Rattle.std.specs.Prelude.{◌≡◌, ◌≢◌, ◌≤◌, ◌==◌, ◌++◌, ◌∷◌, [], true, codes, Ok, Err, Some, None, IfOk, IfErr, OnOk, IsTrue, MatchOption, option_copied, length, drop};
ghost use Rattle.std.specs.List.{ends_with, before_first, after_first};
ghost use Rattle.std.specs.Map.{lookup};
ghost use Rattle.std.specs.Ordering.{is_le};
ghost use Rattle.std.specs.Cmp.Lexicographic.{pointwise};
ghost use Rattle.serde_json.specs.View.{view};
ghost use Rattle.osb_tree.specs.Paths.{is_beneath, path_cmp};
ghost use Rattle.osb_tree.specs.Nodes.{InRange};
ghost use Rattle.osb_tree.specs.Trees.{IsTree, is_directory_at, node_at};
ghost use Rattle.osb_stages.specs.Readers.{IsObject, required};
ghost use Rattle.osb_stages.specs.Rules.{in_order};
ghost use Rattle.osb_files.specs.Copy.{text_after, path_in, source_text, destination_text, copy_entry, copy_options, clash, received, copied, moved_entry, moved, copy_directory, last_name, copy_node, copy_item, copy, left_beneath, IsStep, is_slash, CopiesWhatIsBeneath};

use osb_stages::readers;
use osb_stages::readers::{no_others, optional_flag, required_list};
use osb_stages::rules::make;
use osb_tree::places::{is_beneath, is_directory};
use osb_tree::{
    Inputs, List, Name, NoMemory, Node, OptionFault, Path, PathFault, StageFault, Text, Tree,
};
use serde_json::Value;
use std::alloc::Global;

/// One file, link or directory to copy.
#[derive(Debug, Drop)]
pub struct Item {
    /// The name of the input.
    pub input: Text,
    /// The path in the input's tree.
    pub source: Path,
    pub to: Path,
    /// Whether a file or a link goes into `to` even where nothing stands there.
    pub into: bool,
}

#[derive(Debug, Drop)]
pub struct Options {
    pub paths: List<Item>,
}

impl readers::Item for Item {
    ghost item_of = { copy_entry };

    fn read(alloc: Global, options: &Value) -> Result<Self, OptionFault> {
        let (input, source) = required_source(alloc, "from", options)?;
        let (to, into) = required_destination(alloc, "to", options)?;
        optional_flag(alloc, false, "remove_destination", options)?;
        no_others(alloc, &["from", "to", "remove_destination"], options)?;
        Ok(Item {
            input,
            source,
            to,
            into,
        })
    }
}

pub fn read_options(alloc: Global, value: &Value) -> Result<Options, OptionFault>
    requires { IsObject (view value.now) }
    ensures options { result ≢ Err OptionFault.NoMemory → result ≡ copy_options (view value.now) }
{
    let paths = required_list(alloc, "paths", value)?;
    no_others(alloc, &["paths"], value)?;
    Ok(Options { paths })
}

fn required_source(alloc: Global, name: &str, options: &Value) -> Result<(Text, Path), OptionFault>
    ensures { result ≢ Err OptionFault.NoMemory → result ≡ required source_text name.now (view options.now) }
{
    match options.get(name) {
        Some(value) => read_source(alloc, name, value),
        None => Err(OptionFault::Missing(Text::new(alloc, name)?)),
    }
}

fn required_destination(
    alloc: Global,
    name: &str,
    options: &Value,
) -> Result<(Path, bool), OptionFault>
    ensures { result ≢ Err OptionFault.NoMemory → result ≡ required destination_text name.now (view options.now) }
{
    match options.get(name) {
        Some(value) => read_destination(alloc, name, value),
        None => Err(OptionFault::Missing(Text::new(alloc, name)?)),
    }
}

fn read_source(alloc: Global, name: &str, value: &Value) -> Result<(Text, Path), OptionFault>
    ensures { result ≢ Err OptionFault.NoMemory → result ≡ source_text name.now (view value.now) }
{
    let rest = text_after(alloc, "input://", name, value)?;
    let (input, below) = split_input(rest);
    if input.is_empty() {
        return Err(OptionFault::BadPath(Text::new(alloc, name)?));
    }
    let path = path_from_root(alloc, name, below)?;
    Ok((Text::new(alloc, input)?, path))
}

fn read_destination(alloc: Global, name: &str, value: &Value) -> Result<(Path, bool), OptionFault>
    ensures { result ≢ Err OptionFault.NoMemory → result ≡ destination_text name.now (view value.now) }
{
    let rest = text_after(alloc, "tree://", name, value)?;
    let path = path_in(alloc, name, rest)?;
    Ok((path, ends_in_slash(rest)))
}

/// What a text says after its start.
fn text_after<'a>(
    alloc: Global,
    start: &str,
    name: &str,
    value: &'a Value,
) -> Result<&'a str, OptionFault>
    ensures ok { IfOk result (λ rest. text_after start.now name.now (view value.now) ≡ Ok rest.now) }
    ensures fault { IfErr result (λ fault. fault ≢ OptionFault.NoMemory → text_after start.now name.now (view value.now) ≡ Err fault) }
{
    let Some(text) = value.as_str() else {
        return Err(OptionFault::WrongKind(Text::new(alloc, name)?));
    };
    match text.strip_prefix(start) {
        Some(rest) => Ok(rest),
        None => Err(OptionFault::BadPath(Text::new(alloc, name)?)),
    }
}

fn ends_in_slash(text: &str) -> bool
    ensures { result ≡ ends_with ◌==◌ text.now (codes "/") }
{
    text.ends_with("/")
}

/// What stands before the first `/`, and after it.
fn split_input(text: &str) -> (&str, &str)
    ensures input { result.0.now ≡ before_first is_slash text.now }
    ensures below { result.1.now ≡ after_first is_slash text.now }
{
    match text.split_once('/') {
        Some(parts) => parts,
        None => (text, ""),
    }
}

/// The path that a text gives behind a `/`.
fn path_from_root(alloc: Global, name: &str, below: &str) -> Result<Path, OptionFault>
    ensures { result ≢ Err OptionFault.NoMemory → result ≡ path_in name.now (codes "/" ++ below.now) }
{
    let mut text = String::from_str(alloc, "/")?;
    text.push_str(below)?;
    path_in(alloc, name, text.as_str())
}

fn path_in(alloc: Global, name: &str, text: &str) -> Result<Path, OptionFault>
    ensures { result ≢ Err OptionFault.NoMemory → result ≡ path_in name.now text.now }
{
    match Path::read(alloc, text) {
        Ok(path) => Ok(path),
        Err(PathFault::NoMemory) => Err(OptionFault::NoMemory),
        Err(_) => Err(OptionFault::BadPath(Text::new(alloc, name)?)),
    }
}

/// Copies the items in order, up to the first fault. After a fault the tree is gone.
pub fn apply(
    alloc: Global,
    options: &Options,
    mut tree: Tree,
    inputs: &Inputs,
) -> Result<Tree, StageFault>
    ensures effect { result ≢ Err StageFault.NoMemory → result ≡ copy options.now inputs.now tree }
{
    for item in options.paths.as_slice() {
        copy_item(alloc, inputs, item, &mut tree)?;
    }
    Ok(tree)
}

fn copy_item(alloc: Global, inputs: &Inputs, item: &Item, tree: &mut Tree) -> Result<(), StageFault>
    ensures ok { OnOk result (copy_item inputs.now item.now tree.old ≡ Ok tree.new) }
    ensures fault { IfErr result (λ fault. fault ≢ StageFault.NoMemory → copy_item inputs.now item.now tree.old ≡ Err fault) }
{
    let Some(from) = find_tree(inputs, &item.input) else {
        return Err(StageFault::NoInput(item.input.clone()?));
    };
    match from.get(&item.source) {
        None => Err(StageFault::Missing(item.source.clone()?)),
        Some(node) if is_directory(node) => {
            copy_directory(alloc, from, &item.source, &item.to, node, tree)
        }
        Some(node) => copy_node(alloc, item, node, tree),
    }
}

/// The tree of the input of a name.
fn find_tree<'a>(inputs: &'a Inputs, name: &Text) -> Option<&'a Tree>
    ensures { option_copied result ≡ lookup (λ known. pointwise ◌==◌ known name.now) inputs.now.trees }
{
    for (known, tree) in inputs.trees.as_slice() {
        if known == name {
            return Some(tree.get());
        }
    }
    None
}

/// Copies a file or a link.
fn copy_node(alloc: Global, item: &Item, node: &Node, tree: &mut Tree) -> Result<(), StageFault>
    requires { InRange node.now }
    ensures ok { OnOk result (copy_node item.now node.now tree.old ≡ Ok tree.new) }
    ensures fault { IfErr result (λ fault. fault ≢ StageFault.NoMemory → copy_node item.now node.now tree.old ≡ Err fault) }
{
    if item.into || is_directory_at(tree, &item.to) {
        copy_to(alloc, &item.to, last_name(&item.source), node, tree)
    } else {
        copy_to(alloc, &item.to, &[], node, tree)
    }
}

fn last_name(path: &Path) -> &[Name]
    ensures { result.now ≡ last_name path.now }
{
    let names = path.names();
    &names[names.len().saturating_sub(1)..]
}

/// Copies a directory and all that is beneath it.
fn copy_directory(
    alloc: Global,
    from: &Tree,
    source: &Path,
    destination: &Path,
    node: &Node,
    tree: &mut Tree,
) -> Result<(), StageFault>
    requires { InRange node.now }
    ensures ok { OnOk result (copy_directory from.now source.now destination.now node.now tree.old ≡ Ok tree.new) }
    ensures fault { IfErr result (λ fault. fault ≢ StageFault.NoMemory → copy_directory from.now source.now destination.now node.now tree.old ≡ Err fault) }
{
    if !is_directory_at(tree, destination) {
        receive(alloc, destination, node.clone()?, tree)?;
    }
    copy_beneath(alloc, from, source, destination, tree)
}

/// Copies what lies beneath a path, in path order.
fn copy_beneath(
    alloc: Global,
    from: &Tree,
    source: &Path,
    destination: &Path,
    tree: &mut Tree,
) -> Result<(), StageFault>
    ensures ok { OnOk result (in_order copied (moved source.now destination.now from.now) tree.old ≡ Ok tree.new) }
    ensures fault { IfErr result (λ fault. fault ≢ StageFault.NoMemory → in_order copied (moved source.now destination.now from.now) tree.old ≡ Err fault) }
{
    let mut at = source.clone()?;
    while let Some((next, node)) = next_beneath(from, source, &at)? {
        copy_to(alloc, destination, names_after(source, &next), node, tree)?;
        at = next;
    }
    Ok(())
}

/// The next path beneath another, after a path, and what stands there.
fn next_beneath<'a>(
    from: &'a Tree,
    source: &Path,
    at: &Path,
) -> Result<Option<(Path, &'a Node)>, NoMemory>
    requires { IsTrue (is_le (path_cmp source.now at.now)) }
    ensures { IfOk result (λ found. MatchOption found (left_beneath source.now at.now from.now ≡ []) (λ entry. IsStep source.now at.now from.now entry.0 entry.1.now)) }
{
    let Some(next) = from.next_path(at)? else {
        return Ok(None);
    };
    match from.get(&next) {
        Some(node) if is_beneath(source, &next) => Ok(Some((next, node))),
        _ => Ok(None),
    }
}

/// The names of a path behind those of a path above it.
fn names_after<'a>(above: &Path, path: &'a Path) -> &'a [Name]
    requires { length above.now ≤ length path.now }
    ensures { result.now ≡ drop (length above.now) path.now }
{
    &path.names()[above.names().len()..]
}

/// Puts a copy of a node at some names after a path.
fn copy_to(
    alloc: Global,
    to: &Path,
    rest: &[Name],
    node: &Node,
    tree: &mut Tree,
) -> Result<(), StageFault>
    requires { InRange node.now }
    ensures ok { OnOk result (copied (to.now ++ rest.now, node.now) tree.old ≡ Ok tree.new) }
    ensures fault { IfErr result (λ fault. fault ≢ StageFault.NoMemory → copied (to.now ++ rest.now, node.now) tree.old ≡ Err fault) }
{
    match to.join(alloc, rest) {
        Ok(path) => receive(alloc, &path, node.clone()?, tree),
        Err(PathFault::NoMemory) => Err(StageFault::NoMemory),
        Err(_) => Err(StageFault::TreeTooLarge),
    }
}

/// Puts a node where nothing stands, or in the place of what does.
fn receive(alloc: Global, path: &Path, node: Node, tree: &mut Tree) -> Result<(), StageFault>
    requires { InRange node }
    ensures ok { OnOk result (received path.now node tree.old ≡ Ok tree.new) }
    ensures fault { IfErr result (λ fault. fault ≢ StageFault.NoMemory → received path.now node tree.old ≡ Err fault) }
{
    check_clash(path, &node, tree)?;
    make(alloc, path, node, tree)
}

/// Finds what keeps a node from taking the place of what stands at a path.
fn check_clash(path: &Path, node: &Node, tree: &Tree) -> Result<(), StageFault>
    ensures ok { OnOk result (clash path.now (node_at tree.now path.now) node.now ≡ None) }
    ensures fault { IfErr result (λ fault. fault ≢ StageFault.NoMemory → clash path.now (node_at tree.now path.now) node.now ≡ Some fault) }
    ensures tree { IsTree tree.now }
{
    let Some(there) = tree.get(path) else {
        return Ok(());
    };
    match (is_directory(there), is_directory(node)) {
        (true, false) => Err(StageFault::Exists(path.clone()?)),
        (false, true) => Err(StageFault::NotADir(path.clone()?)),
        _ => Ok(()),
    }
}

fn is_directory_at(tree: &Tree, path: &Path) -> bool
    ensures { result ≡ is_directory_at tree.now path.now }
{
    tree.get(path).is_some_and(is_directory)
}

/// What stands where after a directory was copied.
pub fn a_copy_has_what_is_beneath()
    ensures law { CopiesWhatIsBeneath }
{}
