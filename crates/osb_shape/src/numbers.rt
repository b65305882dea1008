//! Numbers that Python's text has no spelling for.
ghost use Rattle.std.specs.Prelude.{◌≡◌, IfOk, option_map};
ghost use Rattle.serde_json.specs.View.{view, items_view, members_view};
ghost use Rattle.osb_shape.specs.Firsts.{first};
ghost use Rattle.osb_shape.specs.Places.{place_text};
ghost use Rattle.osb_shape.specs.Numbers.{bad_numbers, bad_items, bad_members};

use crate::places::{place_in_item, place_in_member, top_place};
use osb_base::{NoMemory, Text};
use serde_json::{Map, Value};
use std::alloc::Global;

/// The place of the first such number in a value, from the value on.
#[cycle(numbers)]
pub fn bad_number(alloc: Global, value: &Value) -> Result<Option<Text>, NoMemory>
    ensures place { IfOk result (λ place. place ≡ option_map place_text (first (bad_numbers (view value.now)))) }
{
    match value {
        Value::Number(number) => Ok(number.is_f64().then(|| top_place(alloc))),
        Value::Array(items) => bad_item(alloc, items),
        Value::Object(members) => bad_member(alloc, members),
        Value::Null | Value::Bool(_) | Value::String(_) => Ok(None),
    }
}

#[cycle(numbers)]
fn bad_item(alloc: Global, items: &[Value]) -> Result<Option<Text>, NoMemory>
    ensures { IfOk result (λ place. place ≡ option_map place_text (first (bad_items 0 (items_view items.now)))) }
{
    for (i, item) in items.iter().enumerate() {
        if let Some(rest) = bad_number(alloc, item)? {
            return Ok(Some(place_in_item(alloc, i, rest.as_str())?));
        }
    }
    Ok(None)
}

#[cycle(numbers)]
fn bad_member(alloc: Global, members: &Map<String, Value>) -> Result<Option<Text>, NoMemory>
    ensures { IfOk result (λ place. place ≡ option_map place_text (first (bad_members (members_view members.now.entries)))) }
{
    for (name, member) in members.iter() {
        if let Some(rest) = bad_number(alloc, member)? {
            return Ok(Some(place_in_member(alloc, name.as_str(), rest.as_str())?));
        }
    }
    Ok(None)
}
