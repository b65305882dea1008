//! Texts that become parts of lines.
ghost use Rattle.std.specs.Prelude.{◌≡◌, ◌≢◌, ℕ, List, Ok, Err};
ghost use Rattle.serde_json.specs.View.{view};
ghost use Rattle.osb_tree.specs.Paths.{path_text};
ghost use Rattle.osb_stages.specs.Readers.{text};
ghost use Rattle.osb_accounts.specs.UserOptions.{has_none, line_enders, field_enders, text_without, home};

use osb_stages::members::Member;
use osb_stages::readers::{path, text};
use osb_tree::{OptionFault, Path, Text};
use serde_json::Value;
use std::alloc::Global;
use std::marker::Model;

/// What can be a field of an account file, which contracts see as its bytes.
#[derive(Debug, Drop)]
pub struct FieldText {
    text: Text,
}

impl Model for FieldText {
    ghost use Rattle.std.specs.Prelude.{ℕ, List};

    ghost Value = { List ℕ };

    ghost view = { λ t. t.text };
}

impl FieldText {
    pub fn as_bytes(&self) -> &[u8]
        ensures content { result.now ≡ self.now }
    {
        self.text.as_str().as_bytes()
    }
}

impl Member for FieldText {
    ghost reader = { text_without field_enders };

    fn read(alloc: Global, name: &str, value: &Value) -> Result<Self, OptionFault> {
        let text = text_without(alloc, b"\0\n:", name, value)?;
        Ok(FieldText { text })
    }
}

/// What can be a line of a file, which contracts see as its bytes.
#[derive(Debug, Drop)]
pub struct LineText {
    text: Text,
}

impl Model for LineText {
    ghost use Rattle.std.specs.Prelude.{ℕ, List};

    ghost Value = { List ℕ };

    ghost view = { λ t. t.text };
}

impl LineText {
    pub fn as_bytes(&self) -> &[u8]
        ensures content { result.now ≡ self.now }
    {
        self.text.as_str().as_bytes()
    }
}

impl Member for LineText {
    ghost reader = { text_without line_enders };

    fn read(alloc: Global, name: &str, value: &Value) -> Result<Self, OptionFault> {
        let text = text_without(alloc, b"\0\n", name, value)?;
        Ok(LineText { text })
    }
}

/// A home, whose text can be a field, which contracts see as its path.
#[derive(Debug, Drop)]
pub struct Home {
    path: Path,
}

impl Model for Home {
    ghost use Rattle.std.specs.Prelude.{ℕ, List};

    ghost Value = { List (List ℕ) };

    ghost view = { λ h. h.path };
}

impl Home {
    pub fn path(&self) -> &Path
        ensures path { result.now ≡ self.now }
    {
        &self.path
    }
}

impl Member for Home {
    ghost reader = { home };

    fn read(alloc: Global, name: &str, value: &Value) -> Result<Self, OptionFault> {
        let path = path(alloc, name, value)?;
        let text = path.text(alloc)?;
        if has_none(b"\0\n:", text.as_str().as_bytes()) {
            Ok(Home { path })
        } else {
            Err(OptionFault::OutOfRange(Text::new(alloc, name)?))
        }
    }
}

/// A text of at most 4,096 bytes, with none of some.
fn text_without(alloc: Global, bytes: &[u8], name: &str, value: &Value) -> Result<Text, OptionFault>
    ensures { result ≢ Err OptionFault.NoMemory → result ≡ text_without bytes.now name.now (view value.now) }
{
    let text = text(alloc, name, value)?;
    let content = text.as_str().as_bytes();
    if content.len() <= 4096 && has_none(bytes, content) {
        Ok(text)
    } else {
        Err(OptionFault::OutOfRange(Text::new(alloc, name)?))
    }
}

fn has_none(bytes: &[u8], text: &[u8]) -> bool
    ensures { result ≡ has_none bytes.now text.now }
{
    bytes.iter().all(|byte| !text.contains(byte))
}
