//! `org.osbuild.chmod`: changes modes.
ghost use Rattle.std.specs.Prelude.{◌≡◌, ◌≢◌, ◌≤◌, Ok, Err, Some, None, IfErr, OnOk, IsTrue, length, if◌then◌else◌};
ghost use Rattle.std.specs.List.{list_all};
ghost use Rattle.std.specs.Str.Parse.{digits_value};
ghost use Rattle.serde_json.specs.View.{view};
ghost use Rattle.osb_stages.specs.Readers.{IsObject};
ghost use Rattle.osb_files.specs.Chmod.{chmod_change, chmod_options, is_octal_digit, is_mode_text, is_link, with_mode, chmod};

use crate::attributes::{Attributes, give};
use osb_stages::modes::Mode;
use osb_stages::readers;
use osb_stages::readers::{no_others, optional_flag, required_entries, required_text};
use osb_tree::{Inputs, List, Node, OptionFault, Path, StageFault, Text, Tree};
use serde_json::Value;
use std::alloc::Global;

/// What a path gets.
#[derive(Debug, Drop)]
pub struct Change {
    pub mode: Mode,
    /// Whether directories and files beneath it get the mode too.
    pub recursive: bool,
}

#[derive(Debug, Drop)]
pub struct Options {
    pub items: List<(Path, Change)>,
}

impl readers::Item for Change {
    ghost item_of = { chmod_change };

    fn read(alloc: Global, options: &Value) -> Result<Self, OptionFault> {
        let text = required_text(alloc, "mode", options)?;
        let Some(mode) = mode_in(text.as_str().as_bytes()) else {
            return Err(OptionFault::OutOfRange(Text::new(alloc, "mode")?));
        };
        let recursive = optional_flag(alloc, false, "recursive", options)?;
        no_others(alloc, &["mode", "recursive"], options)?;
        Ok(Change { mode, recursive })
    }
}

pub fn read_options(alloc: Global, value: &Value) -> Result<Options, OptionFault>
    requires { IsObject (view value.now) }
    ensures options { result ≢ Err OptionFault.NoMemory → result ≡ chmod_options (view value.now) }
{
    let items = required_entries(alloc, "items", value)?;
    no_others(alloc, &["items"], value)?;
    Ok(Options { items })
}

/// Changes the modes in order, up to the first fault. After a fault the tree is gone.
pub fn apply(
    alloc: Global,
    options: &Options,
    mut tree: Tree,
    _inputs: &Inputs,
) -> Result<Tree, StageFault>
    ensures effect { result ≢ Err StageFault.NoMemory → result ≡ chmod options.now tree }
{
    for item in options.items.as_slice() {
        change_mode(alloc, item, &mut tree)?;
    }
    Ok(tree)
}

fn change_mode(alloc: Global, item: &(Path, Change), tree: &mut Tree) -> Result<(), StageFault>
    ensures ok { OnOk result (with_mode item.now tree.old ≡ Ok tree.new) }
    ensures fault { IfErr result (λ fault. fault ≢ StageFault.NoMemory → with_mode item.now tree.old ≡ Err fault) }
{
    let (path, change) = item;
    let Some(node) = tree.get(path) else {
        return Err(StageFault::Missing(path.clone()?));
    };
    if is_link(node) {
        return Err(StageFault::NotAFile(path.clone()?));
    }
    let given = Attributes {
        mode: Some(change.mode),
        uid: None,
        gid: None,
    };
    give(alloc, &given, path, change.recursive, tree)?;
    Ok(())
}

fn is_link(node: &Node) -> bool
    ensures { result ≡ is_link node.now }
{
    matches!(node, Node::Link { .. })
}

/// The mode that 3 or 4 octal digits write.
fn mode_in(text: &[u8]) -> Option<Mode>
    ensures { result ≡ (if is_mode_text text.now then Some (digits_value 8 text.now) else None) }
{
    if text.len() != 3 && text.len() != 4 || !are_octal(text) {
        return None;
    }
    Some(Mode::new(octal_value(text)))
}

fn are_octal(text: &[u8]) -> bool
    ensures { result ≡ list_all is_octal_digit text.now }
{
    text.iter().all(|b| matches!(*b, b'0'..=b'7'))
}

fn octal_value(digits: &[u8]) -> u32
    requires digits { IsTrue (list_all is_octal_digit digits.now) }
    requires few { length digits.now ≤ 4 }
    ensures value { result ≡ digits_value 8 digits.now }
    ensures small { result ≤ 4095 }
{
    let mut value = 0;
    for digit in digits {
        value = value * 8 + u32::from(*digit - b'0');
    }
    value
}
