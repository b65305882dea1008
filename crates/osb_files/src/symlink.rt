//! `org.osbuild.symlink`: makes links.
ghost use Rattle.std.specs.Prelude.{◌≡◌, ◌≢◌, Ok, Err, IfErr, OnOk};
ghost use Rattle.serde_json.specs.View.{view};
ghost use Rattle.osb_stages.specs.Readers.{IsObject};
ghost use Rattle.osb_files.specs.Symlink.{symlink_item, symlink_options, with_link, symlink};

use osb_stages::readers;
use osb_stages::readers::{no_others, required_list, required_path, required_text};
use osb_stages::rules::{check_ancestors, place};
use osb_stages::targets::Target;
use osb_tree::{Inputs, List, OptionFault, Path, StageFault, Text, Tree};
use serde_json::Value;
use std::alloc::Global;

/// One link to make.
#[derive(Debug, Drop)]
pub struct Item {
    /// What it points to, which need not be there.
    pub target: Target,
    /// Where it stands.
    pub link: Path,
}

#[derive(Debug, Drop)]
pub struct Options {
    pub paths: List<Item>,
}

impl readers::Item for Item {
    ghost item_of = { symlink_item };

    fn read(alloc: Global, options: &Value) -> Result<Self, OptionFault> {
        let text = required_text(alloc, "target", options)?;
        let Some(target) = Target::new(text) else {
            return Err(OptionFault::OutOfRange(Text::new(alloc, "target")?));
        };
        let link = required_path(alloc, "link", options)?;
        no_others(alloc, &["target", "link"], options)?;
        Ok(Item { target, link })
    }
}

pub fn read_options(alloc: Global, value: &Value) -> Result<Options, OptionFault>
    requires { IsObject (view value.now) }
    ensures options { result ≢ Err OptionFault.NoMemory → result ≡ symlink_options (view value.now) }
{
    let paths = required_list(alloc, "paths", value)?;
    no_others(alloc, &["paths"], value)?;
    Ok(Options { paths })
}

/// Makes the links in order, up to the first fault. After a fault the tree is gone.
pub fn apply(
    alloc: Global,
    options: &Options,
    mut tree: Tree,
    _inputs: &Inputs,
) -> Result<Tree, StageFault>
    ensures effect { result ≢ Err StageFault.NoMemory → result ≡ symlink options.now tree }
{
    for item in options.paths.as_slice() {
        make_link(alloc, item, &mut tree)?;
    }
    Ok(tree)
}

fn make_link(alloc: Global, item: &Item, tree: &mut Tree) -> Result<(), StageFault>
    ensures ok { OnOk result (with_link item.now tree.old ≡ Ok tree.new) }
    ensures fault { IfErr result (λ fault. fault ≢ StageFault.NoMemory → with_link item.now tree.old ≡ Err fault) }
{
    check_ancestors(alloc, &item.link, tree)?;
    if tree.get(&item.link).is_some() {
        return Err(StageFault::Exists(item.link.clone()?));
    }
    place(alloc, &item.link, item.target.link()?, tree)
}
