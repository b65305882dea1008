//! `org.osbuild.error`: fails as it is asked to.
ghost use Rattle.std.specs.Prelude.{◌≡◌, ◌≢◌, Ok, Err};
ghost use Rattle.serde_json.specs.View.{view};
ghost use Rattle.osb_stages.specs.Readers.{IsObject};
ghost use Rattle.osb_files.specs.Error.{error_options, error};

use osb_stages::readers::{no_others, optional_number};
use osb_tree::{Inputs, OptionFault, StageFault, Tree};
use serde_json::Value;
use std::alloc::Global;

#[derive(Clone, Copy, Debug)]
pub struct Options {
    /// The status that the stage is to end with, 0 to 255.
    pub returncode: u32,
}

pub fn read_options(alloc: Global, value: &Value) -> Result<Options, OptionFault>
    requires { IsObject (view value.now) }
    ensures options { result ≢ Err OptionFault.NoMemory → result ≡ error_options (view value.now) }
{
    let returncode = optional_number(alloc, 255, 255, "returncode", value)?;
    no_others(alloc, &["returncode"], value)?;
    Ok(Options { returncode })
}

/// Leaves the tree where the status is 0. After a fault the tree is gone.
pub fn apply(
    _alloc: Global,
    options: &Options,
    tree: Tree,
    _inputs: &Inputs,
) -> Result<Tree, StageFault>
    ensures effect { result ≢ Err StageFault.NoMemory → result ≡ error options.now tree }
{
    if options.returncode == 0 {
        Ok(tree)
    } else {
        Err(StageFault::Asked(u64::from(options.returncode)))
    }
}
