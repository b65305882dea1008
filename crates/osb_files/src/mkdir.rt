//! `org.osbuild.mkdir`: makes directories.
ghost use Rattle.std.specs.Prelude.{◌≡◌, ◌≢◌, Ok, Err, IfErr, OnOk};
ghost use Rattle.serde_json.specs.View.{view};
ghost use Rattle.osb_stages.specs.Readers.{IsObject};
ghost use Rattle.osb_files.specs.Mkdir.{mkdir_item, mkdir_options, with_directory, with_new_directory, mkdir};

use osb_stages::modes::Mode;
use osb_stages::readers;
use osb_stages::readers::{
    no_others, optional_flag, optional_number, required_list, required_path,
};
use osb_stages::rules::{directory, make, make_ancestors, place};
use osb_tree::places::is_directory;
use osb_tree::{Inputs, List, OptionFault, Path, StageFault, Tree};
use serde_json::Value;
use std::alloc::Global;

/// One directory to make.
#[derive(Debug, Drop)]
pub struct Item {
    pub path: Path,
    pub mode: Mode,
    /// Whether missing directories above it are made too.
    pub parents: bool,
    /// Whether a directory may stand there already.
    pub exist_ok: bool,
}

#[derive(Debug, Drop)]
pub struct Options {
    pub paths: List<Item>,
}

impl readers::Item for Item {
    ghost item_of = { mkdir_item };

    fn read(alloc: Global, options: &Value) -> Result<Self, OptionFault> {
        let path = required_path(alloc, "path", options)?;
        let mode = Mode::new(optional_number(alloc, 4095, 493, "mode", options)?);
        let parents = optional_flag(alloc, false, "parents", options)?;
        let exist_ok = optional_flag(alloc, false, "exist_ok", options)?;
        no_others(alloc, &["path", "mode", "parents", "exist_ok"], options)?;
        Ok(Item {
            path,
            mode,
            parents,
            exist_ok,
        })
    }
}

pub fn read_options(alloc: Global, value: &Value) -> Result<Options, OptionFault>
    requires { IsObject (view value.now) }
    ensures options { result ≢ Err OptionFault.NoMemory → result ≡ mkdir_options (view value.now) }
{
    let paths = required_list(alloc, "paths", value)?;
    no_others(alloc, &["paths"], value)?;
    Ok(Options { paths })
}

/// Makes the directories in order, up to the first fault. After a fault the tree is gone.
pub fn apply(
    alloc: Global,
    options: &Options,
    mut tree: Tree,
    _inputs: &Inputs,
) -> Result<Tree, StageFault>
    ensures effect { result ≢ Err StageFault.NoMemory → result ≡ mkdir options.now tree }
{
    for item in options.paths.as_slice() {
        make_directory(alloc, item, &mut tree)?;
    }
    Ok(tree)
}

fn make_directory(alloc: Global, item: &Item, tree: &mut Tree) -> Result<(), StageFault>
    ensures ok { OnOk result (with_directory item.now tree.old ≡ Ok tree.new) }
    ensures fault { IfErr result (λ fault. fault ≢ StageFault.NoMemory → with_directory item.now tree.old ≡ Err fault) }
{
    match tree.get(&item.path) {
        None => make_new_directory(alloc, item, tree),
        Some(node) if item.exist_ok && is_directory(node) => Ok(()),
        Some(_) => Err(StageFault::Exists(item.path.clone()?)),
    }
}

/// Makes a directory where nothing stands.
fn make_new_directory(alloc: Global, item: &Item, tree: &mut Tree) -> Result<(), StageFault>
    ensures ok { OnOk result (with_new_directory item.now tree.old ≡ Ok tree.new) }
    ensures fault { IfErr result (λ fault. fault ≢ StageFault.NoMemory → with_new_directory item.now tree.old ≡ Err fault) }
{
    let directory = directory(item.mode);
    if item.parents {
        make_ancestors(alloc, &item.path, tree)?;
        place(alloc, &item.path, directory, tree)
    } else {
        make(alloc, &item.path, directory, tree)
    }
}
