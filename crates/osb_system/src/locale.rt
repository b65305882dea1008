//! `org.osbuild.locale`: sets the language.
ghost use Rattle.std.specs.Prelude.{◌≡◌, ◌≢◌, Ok, Err};
ghost use Rattle.serde_json.specs.View.{view};
ghost use Rattle.osb_stages.specs.Readers.{IsObject};
ghost use Rattle.osb_system.specs.Locale.{locale_options, locale};

use crate::settings::{SystemFile, is_line, write_file};
use osb_stages::readers::{no_others, required_text};
use osb_tree::{Bytes, Inputs, OptionFault, StageFault, Text, Tree};
use serde_json::Value;
use std::alloc::Global;

#[derive(Debug, Drop)]
pub struct Options {
    /// 1 to 128 bytes within a line.
    pub language: Text,
}

pub fn read_options(alloc: Global, value: &Value) -> Result<Options, OptionFault>
    requires { IsObject (view value.now) }
    ensures options { result ≢ Err OptionFault.NoMemory → result ≡ locale_options (view value.now) }
{
    let language = required_text(alloc, "language", value)?;
    if !is_line(language.as_str()) {
        return Err(OptionFault::OutOfRange(Text::new(alloc, "language")?));
    }
    no_others(alloc, &["language"], value)?;
    Ok(Options { language })
}

/// Writes `/etc/locale.conf`. After a fault the tree is gone.
pub fn apply(
    alloc: Global,
    options: &Options,
    mut tree: Tree,
    _inputs: &Inputs,
) -> Result<Tree, StageFault>
    ensures effect { result ≢ Err StageFault.NoMemory → result ≡ locale options.now tree }
{
    let text = format!(in alloc; "LANG={}\n", options.language.as_str())?;
    write_file(
        alloc,
        SystemFile::Locale,
        0o644,
        Bytes::new(text.into_bytes()),
        &mut tree,
    )?;
    Ok(tree)
}
