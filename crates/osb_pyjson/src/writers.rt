ghost use Rattle.std.specs.Prelude.{◌≡◌, ◌≢◌, ◌++◌, Err, true, Some, codes, IsErr, OnOk, string_bytes};
ghost use Rattle.serde_json.specs.View.{view, number_view, items_view, members_view};
ghost use Rattle.serde_json.specs.Written.{has_float, items_have_float, members_have_float};
ghost use Rattle.serde_json.specs.Find.{is_float};
ghost use Rattle.osb_pyjson.specs.PyText.{◌<+>◌, py_number, py_text_string, py_data, py_items, py_members, py_text_of};
ghost use Rattle.osb_pyjson.specs.Written.{after, separator};

use crate::faults::PyFault;
use crate::quotes::write_quoted;
use osb_tree::{NoMemory, Text};
use serde_json::{Map, Number, Value};
use std::alloc::Global;
use std::fmt::Write;

fn write_number(out: &mut String, number: Number) -> Result<(), PyFault>
    ensures text { OnOk result (after (string_bytes out.old) (py_number (number_view number))
        ≡ Some (string_bytes out.new)) }
    ensures not_whole { result ≡ Err PyFault.NotWhole → is_float (number_view number) ≡ true }
{
    if let Some(n) = number.as_u64() {
        write!(out, "{n}")?;
    } else if let Some(n) = number.as_i64() {
        write!(out, "{n}")?;
    } else {
        return Err(PyFault::NotWhole);
    }
    Ok(())
}

#[cycle(py)]
fn write_value(out: &mut String, value: &Value) -> Result<(), PyFault>
    ensures text { OnOk result (after (string_bytes out.old) (py_data (view value.now))
        ≡ Some (string_bytes out.new)) }
    ensures not_whole { result ≡ Err PyFault.NotWhole → has_float (view value.now) ≡ true }
{
    match value {
        Value::Null => out.push_str("null")?,
        Value::Bool(true) => out.push_str("true")?,
        Value::Bool(false) => out.push_str("false")?,
        Value::Number(number) => write_number(out, *number)?,
        Value::String(text) => write_quoted(out, text.as_str())?,
        Value::Array(items) => write_items(out, items)?,
        Value::Object(members) => write_members(out, members)?,
    }
    Ok(())
}

fn write_separator(out: &mut String, is_first: bool) -> Result<(), NoMemory>
    ensures { OnOk result (string_bytes out.new ≡ string_bytes out.old ++ separator is_first) }
{
    if is_first {
        return Ok(());
    }
    out.push_str(", ")
}

#[cycle(py)]
fn write_items(out: &mut String, items: &[Value]) -> Result<(), PyFault>
    ensures text { OnOk result (after (string_bytes out.old)
        (py_items (items_view items.now))
        ≡ Some (string_bytes out.new)) }
    ensures not_whole { result ≡ Err PyFault.NotWhole
        → items_have_float (items_view items.now) ≡ true }
{
    out.push_str("[")?;
    let mut is_first = true;
    for item in items {
        write_separator(out, is_first)?;
        write_value(out, item)?;
        is_first = false;
    }
    out.push_str("]")?;
    Ok(())
}

#[cycle(py)]
fn write_member(out: &mut String, key: &str, member: &Value) -> Result<(), PyFault>
    ensures text { OnOk result (after (string_bytes out.old)
        (py_text_string key.now <+> (Some (codes ": ") <+> py_data (view member.now)))
        ≡ Some (string_bytes out.new)) }
    ensures not_whole { result ≡ Err PyFault.NotWhole → has_float (view member.now) ≡ true }
{
    write_quoted(out, key)?;
    out.push_str(": ")?;
    write_value(out, member)
}

#[cycle(py)]
fn write_members(out: &mut String, members: &Map<String, Value>) -> Result<(), PyFault>
    ensures text { OnOk result (after (string_bytes out.old)
        (py_members (members_view members.now.entries))
        ≡ Some (string_bytes out.new)) }
    ensures not_whole { result ≡ Err PyFault.NotWhole
        → members_have_float (members_view members.now.entries) ≡ true }
{
    out.push_str("{")?;
    let mut is_first = true;
    for (key, member) in members.iter() {
        write_separator(out, is_first)?;
        write_member(out, key.as_str(), member)?;
        is_first = false;
    }
    out.push_str("}")?;
    Ok(())
}

/// A value as Python's `json.dumps` writes it where `sort_keys` is set, and nothing else.
pub fn py_text(alloc: Global, value: &Value) -> Result<Text, PyFault>
    ensures text { result ≢ Err PyFault.NoMemory → result ≡ py_text_of (view value.now) }
    ensures not_whole { result ≡ Err PyFault.NotWhole → has_float (view value.now) ≡ true }
    ensures whole { has_float (view value.now) ≡ true → IsErr result }
{
    let mut out = String::new(alloc);
    write_value(&mut out, value)?;
    Ok(Text::from(out))
}
