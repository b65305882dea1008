//! A reader of the one spelling that a value has. What reads the parts takes other spellings too: at the end the text is
//! compared with the one that is written of the value.
ghost use Rattle.std.specs.Prelude.{◌≡◌, ◌≤◌, [], map, None, Ok, Some, IsTrue, ◌↔◌, IfOk, length, string_bytes};
ghost use Rattle.serde_json.specs.Data.{Data, depth, no_members};
ghost use Rattle.serde_json.specs.View.{view, members_view};
ghost use Rattle.serde_json.specs.declared.value.Value.{Value};
ghost use Rattle.osb_pyjson.specs.PyText.{py_data};
ghost use Rattle.osb_pyread.specs.Steps.{Gives};
ghost use Rattle.osb_pyread.specs.Nests.{skip_comma, word_at, plain_at, member_at, items_at, members_at, value_at};

use crate::faults::Stop;
use crate::numbers::read_number;
use crate::strings::read_quoted;
use crate::words::behind;
use osb_pyjson::{PyFault, py_text};
use osb_tree::NoMemory;
use serde_json::{Map, Value};
use std::alloc::{AllocError, Global};

fn skip_comma(bytes: &[u8]) -> &[u8]
    ensures { result.now ≡ skip_comma bytes.now }
{
    behind(b", ", bytes).unwrap_or(bytes)
}

fn read_word<'a>(word: &[u8], value: Value, bytes: &'a [u8]) -> Result<(Value, &'a [u8]), Stop>
    ensures { Gives (λ x. (view x.0, x.1.now)) result (word_at word.now (view value) bytes.now) }
{
    match behind(word, bytes) {
        Some(rest) => Ok((value, rest)),
        None => Err(Stop::Broken),
    }
}

#[tactic(auto, unfolding(crate::specs::Nests::plain_at))]
fn read_plain(alloc: Global, bytes: &[u8]) -> Result<(Value, &[u8]), Stop>
    ensures { Gives (λ x. (view x.0, x.1.now)) result (plain_at bytes.now) }
{
    match bytes {
        [b'"', ..] => {
            let (text, rest) = read_quoted(alloc, bytes)?;
            Ok((Value::from(text), rest))
        }
        [b'n', ..] => read_word(b"null", Value::Null, bytes),
        [b't', ..] => read_word(b"true", Value::Bool(true), bytes),
        [b'f', ..] => read_word(b"false", Value::Bool(false), bytes),
        [_, ..] => {
            let (number, rest) = read_number(bytes)?;
            Ok((Value::from(number), rest))
        }
        [] => Err(Stop::Broken),
    }
}

#[cycle(reading)]
#[tactic(auto, unfolding(crate::specs::Nests::value_at, crate::specs::Nests::nested_at))]
fn read_value(alloc: Global, depth: usize, bytes: &[u8]) -> Result<(Value, &[u8]), Stop>
    ensures { Gives (λ x. (view x.0, x.1.now)) result (value_at depth bytes.now) }
{
    if depth == 0 {
        return read_plain(alloc, bytes);
    }
    match bytes {
        [b'[', rest @ ..] => {
            let (items, rest) = read_items(alloc, depth - 1, rest)?;
            Ok((Value::from(items), rest))
        }
        [b'{', rest @ ..] => {
            let (members, rest) = read_members(alloc, depth - 1, rest)?;
            Ok((Value::from(members), rest))
        }
        [_, ..] => read_plain(alloc, bytes),
        [] => Err(Stop::Broken),
    }
}

#[cycle(reading)]
fn read_items(alloc: Global, depth: usize, bytes: &[u8]) -> Result<(Vec<Value>, &[u8]), Stop>
    ensures { Gives (λ x. (map view x.0.items, x.1.now)) result
        (items_at (value_at depth) (length bytes.now) [] bytes.now) }
{
    let mut items = Vec::new(alloc);
    let mut rest = bytes;
    for _ in 0..bytes.len() {
        if let Some(after) = behind(b"]", rest) {
            return Ok((items, after));
        }
        let (item, after) = read_value(alloc, depth, skip_comma(rest))?;
        items.push(item)?;
        rest = after;
    }
    Err(Stop::Broken)
}

#[cycle(reading)]
fn read_member(alloc: Global, depth: usize, bytes: &[u8]) -> Result<((String, Value), &[u8]), Stop>
    ensures { Gives (λ x. ((string_bytes x.0.0, view x.0.1), x.1.now)) result
        (member_at (value_at depth) bytes.now) }
{
    let (key, rest) = read_quoted(alloc, skip_comma(bytes))?;
    let rest = behind(b": ", rest).ok_or(Stop::Broken)?;
    let (value, rest) = read_value(alloc, depth, rest)?;
    Ok(((key, value), rest))
}

#[cycle(reading)]
fn read_members(
    alloc: Global,
    depth: usize,
    bytes: &[u8],
) -> Result<(Map<String, Value>, &[u8]), Stop>
    ensures { Gives (λ x. (members_view x.0.entries, x.1.now)) result
        (members_at (value_at depth) (length bytes.now) no_members bytes.now) }
{
    let mut members = Map::new(alloc);
    let mut rest = bytes;
    for _ in 0..bytes.len() {
        if let Some(after) = behind(b"}", rest) {
            return Ok((members, after));
        }
        let ((key, value), after) = read_member(alloc, depth, rest)?;
        drop(members.insert(key, value)?);
        rest = after;
    }
    Err(Stop::Broken)
}

/// Whether this is the value's text.
fn is_text_of(alloc: Global, text: &str, value: &Value) -> Result<bool, NoMemory>
    ensures { IfOk result
        (λ is_text. IsTrue is_text ↔ (py_data (view value.now) ≡ Some text.now)) }
{
    match py_text(alloc, value) {
        Ok(written) => Ok(written.as_str() == text),
        Err(PyFault::NotWhole) => Ok(false),
        Err(PyFault::NoMemory) => Err(AllocError),
    }
}

/// The value, nested at most 127 deep, whose Python text this is; none where there is no such value.
pub fn py_value(alloc: Global, text: &str) -> Result<Option<Value>, NoMemory>
    ensures some { (value : Value) → result ≡ Ok (Some value) → (py_data (view value) ≡ Some text.now) × (depth (view value) ≤ 127) }
    ensures none { result ≡ Ok None → (value : Data) → depth value ≤ 127 → py_data value ≡ Some text.now → ⊥ }
{
    let value = match read_value(alloc, 127, text.as_bytes()) {
        Ok((value, _)) => value,
        Err(Stop::Broken) => return Ok(None),
        Err(Stop::Memory) => return Err(AllocError),
    };
    if is_text_of(alloc, text, &value)? {
        return Ok(Some(value));
    }
    Ok(None)
}
