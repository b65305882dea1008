//! `org.osbuild.hostname`: names the system.
ghost use Rattle.std.specs.Prelude.{◌≡◌, ◌≢◌, Ok, Err};
ghost use Rattle.serde_json.specs.View.{view};
ghost use Rattle.osb_stages.specs.Readers.{IsObject};
ghost use Rattle.osb_system.specs.Hostname.{is_hostname, hostname_options, hostname};

use crate::settings::{SystemFile, write_file};
use osb_stages::readers::{no_others, required_text};
use osb_tree::{Bytes, Inputs, OptionFault, StageFault, Text, Tree};
use serde_json::Value;
use std::alloc::Global;

#[derive(Debug, Drop)]
pub struct Options {
    /// 1 to 64 letters, digits, `-` and `.`.
    pub hostname: Text,
}

pub fn read_options(alloc: Global, value: &Value) -> Result<Options, OptionFault>
    requires { IsObject (view value.now) }
    ensures options { result ≢ Err OptionFault.NoMemory → result ≡ hostname_options (view value.now) }
{
    let hostname = required_text(alloc, "hostname", value)?;
    if !is_hostname(hostname.as_str().as_bytes()) {
        return Err(OptionFault::OutOfRange(Text::new(alloc, "hostname")?));
    }
    no_others(alloc, &["hostname"], value)?;
    Ok(Options { hostname })
}

/// Writes `/etc/hostname`. After a fault the tree is gone.
pub fn apply(
    alloc: Global,
    options: &Options,
    mut tree: Tree,
    _inputs: &Inputs,
) -> Result<Tree, StageFault>
    ensures effect { result ≢ Err StageFault.NoMemory → result ≡ hostname options.now tree }
{
    let text = format!(in alloc; "{}\n", options.hostname.as_str())?;
    write_file(
        alloc,
        SystemFile::Hostname,
        0o644,
        Bytes::new(text.into_bytes()),
        &mut tree,
    )?;
    Ok(tree)
}

fn is_hostname(name: &[u8]) -> bool
    ensures { result ≡ is_hostname name.now }
{
    let is_short = name.len() <= 64;
    !name.is_empty()
        && is_short
        && name
            .iter()
            .all(|b| b.is_ascii_alphanumeric() || *b == b'-' || *b == b'.')
}
