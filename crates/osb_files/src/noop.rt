//! `org.osbuild.noop`: leaves the tree.
ghost use Rattle.std.specs.Prelude.{◌≡◌, ◌≢◌, Ok, Err};
ghost use Rattle.serde_json.specs.View.{view};
ghost use Rattle.osb_stages.specs.Readers.{IsObject};
ghost use Rattle.osb_files.specs.Noop.{noop_options, noop};

use osb_tree::{Inputs, OptionFault, StageFault, Tree};
use serde_json::Value;
use std::alloc::Global;

/// It has none: any members are accepted, unread.
#[derive(Clone, Copy, Debug)]
pub struct Options {}

pub fn read_options(_alloc: Global, value: &Value) -> Result<Options, OptionFault>
    requires { IsObject (view value.now) }
    ensures options { result ≢ Err OptionFault.NoMemory → result ≡ noop_options (view value.now) }
{
    Ok(Options {})
}

pub fn apply(
    _alloc: Global,
    options: &Options,
    tree: Tree,
    _inputs: &Inputs,
) -> Result<Tree, StageFault>
    ensures effect { result ≢ Err StageFault.NoMemory → result ≡ noop options.now tree }
{
    Ok(tree)
}
