//! `org.osbuild.machine-id`: says whether the system boots for the first time.
ghost use Rattle.std.specs.Prelude.{◌≡◌, ◌≢◌, Ok, Err, IfErr, OnOk};
ghost use Rattle.serde_json.specs.View.{view};
ghost use Rattle.osb_tree.specs.Trees.{node_at};
ghost use Rattle.osb_stages.specs.Readers.{IsObject};
ghost use Rattle.osb_system.specs.Settings.{system_path, with_file};
ghost use Rattle.osb_system.specs.declared.settings.SystemFile.TheVariants as files;
ghost use Rattle.osb_system.specs.MachineId.{first_boot, machine_id_options, preserved, machine_id};

use crate::settings::{SystemFile, write_file};
use osb_stages::readers::{no_others, required_text};
use osb_tree::{Bytes, Inputs, Node, OptionFault, StageFault, Text, Tree};
use serde_json::Value;
use std::alloc::Global;

/// What becomes of the machine's identifier.
#[derive(Clone, Copy, Debug)]
pub enum FirstBoot {
    /// The next boot is the first one.
    Yes,
    /// Each boot gets an identifier of its own.
    No,
    /// The file that is there stays.
    Preserve,
}

#[derive(Debug, Drop)]
pub struct Options {
    pub first_boot: FirstBoot,
}

pub fn read_options(alloc: Global, value: &Value) -> Result<Options, OptionFault>
    requires { IsObject (view value.now) }
    ensures options { result ≢ Err OptionFault.NoMemory → result ≡ machine_id_options (view value.now) }
{
    let said = required_text(alloc, "first-boot", value)?;
    let first_boot = first_boot(alloc, said.as_str())?;
    no_others(alloc, &["first-boot"], value)?;
    Ok(Options { first_boot })
}

fn first_boot(alloc: Global, said: &str) -> Result<FirstBoot, OptionFault>
    ensures { result ≢ Err OptionFault.NoMemory → result ≡ first_boot said.now }
{
    match said {
        "yes" => Ok(FirstBoot::Yes),
        "no" => Ok(FirstBoot::No),
        "preserve" => Ok(FirstBoot::Preserve),
        _ => Err(OptionFault::OutOfRange(Text::new(alloc, "first-boot")?)),
    }
}

/// Writes `/etc/machine-id`, or looks whether it is there. After a fault the tree is gone.
pub fn apply(
    alloc: Global,
    options: &Options,
    mut tree: Tree,
    _inputs: &Inputs,
) -> Result<Tree, StageFault>
    ensures effect { result ≢ Err StageFault.NoMemory → result ≡ machine_id options.now tree }
{
    match options.first_boot {
        FirstBoot::Yes => write_machine_id(alloc, b"uninitialized\n", &mut tree)?,
        FirstBoot::No => write_machine_id(alloc, b"", &mut tree)?,
        FirstBoot::Preserve => check_machine_id(alloc, &tree)?,
    }
    Ok(tree)
}

fn write_machine_id(alloc: Global, text: &[u8], tree: &mut Tree) -> Result<(), StageFault>
    ensures ok { OnOk result (with_file files.MachineId 292 text.now tree.old ≡ Ok tree.new) }
    ensures fault { IfErr result (λ fault. fault ≢ StageFault.NoMemory → with_file files.MachineId 292 text.now tree.old ≡ Err fault) }
{
    let text = Bytes::new(text.to_vec(alloc)?);
    write_file(alloc, SystemFile::MachineId, 0o444, text, tree)
}

/// Finds what keeps the file from staying.
fn check_machine_id(alloc: Global, tree: &Tree) -> Result<(), StageFault>
    ensures ok { OnOk result (preserved (node_at tree.now (system_path files.MachineId)) tree.now ≡ Ok tree.now) }
    ensures fault { IfErr result (λ fault. fault ≢ StageFault.NoMemory → preserved (node_at tree.now (system_path files.MachineId)) tree.now ≡ Err fault) }
{
    let path = SystemFile::MachineId.path(alloc)?;
    match tree.get(&path) {
        Some(Node::File { .. }) => Ok(()),
        Some(_) => Err(StageFault::NotAFile(path)),
        None => Err(StageFault::Missing(path)),
    }
}
