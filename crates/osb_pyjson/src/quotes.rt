ghost use Rattle.std.specs.Prelude.{◌≡◌, ◌++◌, Some, IfOk, OnOk, string_bytes};
ghost use Rattle.std.specs.List.{flat_map};
ghost use Rattle.std.specs.Str.{chars};
ghost use Rattle.osb_pyjson.specs.PyText.{py_char, py_quoted, py_text_string};
ghost use Rattle.osb_pyjson.specs.Written.{after};

use crate::escapes::write_char;
use osb_tree::{NoMemory, Text};
use std::alloc::Global;

fn write_chars(out: &mut String, text: &str) -> Result<(), NoMemory>
    ensures { OnOk result (string_bytes out.new
        ≡ string_bytes out.old ++ flat_map py_char (chars text.now)) }
{
    for c in text.chars() {
        write_char(out, c)?;
    }
    Ok(())
}

pub fn write_quoted(out: &mut String, text: &str) -> Result<(), NoMemory>
    ensures { OnOk result (after (string_bytes out.old) (py_text_string text.now)
        ≡ Some (string_bytes out.new)) }
{
    out.push('"')?;
    write_chars(out, text)?;
    out.push('"')?;
    Ok(())
}

/// The text that Python's `json.dumps` gives for one text, with its defaults.
pub fn py_string(alloc: Global, text: &str) -> Result<Text, NoMemory>
    ensures quoted { IfOk result (λ quoted. quoted ≡ py_quoted text.now) }
{
    let mut out = String::new(alloc);
    write_quoted(&mut out, text)?;
    Ok(Text::from(out))
}
