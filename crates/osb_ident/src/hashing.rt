//! Takes Python's texts into a hasher.
ghost use Rattle.std.specs.Prelude.{◌≡◌, ◌++◌, OnOk, option_copied};
ghost use Rattle.osb_pyjson.specs.PyText.{py_quoted};
ghost use Rattle.osb_ident.specs.Hashed.{Takes, separator};
ghost use Rattle.osb_ident.specs.Idents.{id_text, member_text};

use osb_base::{Digest, NoMemory};
use osb_pyjson::py_string;
use sha2::{Digest as Hashing, Sha256};
use std::alloc::Global;

pub fn take_text(hasher: &mut Sha256, text: &str)
    ensures { Takes hasher.old hasher.new text.now }
{
    hasher.update(text);
}

pub fn take_quoted(alloc: Global, hasher: &mut Sha256, text: &str) -> Result<(), NoMemory>
    ensures { OnOk result (Takes hasher.old hasher.new (py_quoted text.now)) }
{
    let quoted = py_string(alloc, text)?;
    take_text(hasher, quoted.as_str());
    Ok(())
}

/// Takes an identifier, or `null` in its place.
#[tactic(auto, unfolding(crate::specs::Idents::id_text))]
pub fn take_id(alloc: Global, hasher: &mut Sha256, id: Option<&Digest>) -> Result<(), NoMemory>
    ensures { OnOk result (Takes hasher.old hasher.new (id_text (option_copied id.entry))) }
{
    match id {
        Some(id) => take_quoted(alloc, hasher, id.hex(alloc)?.as_str())?,
        None => take_text(hasher, "null"),
    }
    Ok(())
}

/// Takes what stands before a member of an object.
fn take_separator(hasher: &mut Sha256, is_first: bool)
    ensures { Takes hasher.old hasher.new (separator is_first) }
{
    if !is_first {
        take_text(hasher, ", ");
    }
}

/// Takes a member of an object, with the text of its value.
pub fn take_member(
    alloc: Global,
    hasher: &mut Sha256,
    is_first: bool,
    key: &str,
    value: &str,
) -> Result<(), NoMemory>
    ensures { OnOk result (Takes hasher.old hasher.new
        (separator is_first ++ member_text (key.now, value.now))) }
{
    take_separator(hasher, is_first);
    take_quoted(alloc, hasher, key)?;
    take_text(hasher, ": ");
    take_text(hasher, value);
    Ok(())
}
