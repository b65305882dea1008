//! Looks into a JSON value.
ghost use Rattle.std.specs.Prelude.{◌≡◌, length, nat_lt, option_map, unwrap_or};
ghost use Rattle.serde_json.specs.Data.{object, no_members};
ghost use Rattle.serde_json.specs.View.{view, items_view, members_view};
ghost use Rattle.osb_shape.specs.Values.{is_object, all_items, all_members, is_empty_items, is_empty_members, list_of, list_at, text_at, is_text, members_at};

use serde_json::{Map, Value};

pub(crate) fn is_empty_list(items: &[Value]) -> bool
    ensures { result ≡ is_empty_items (items_view items.now) }
{
    items.is_empty()
}

pub(crate) fn is_empty_object(members: &Map<String, Value>) -> bool
    ensures { result ≡ is_empty_members (members_view members.now.entries) }
{
    members.is_empty()
}

pub(crate) fn are_objects(items: &[Value]) -> bool
    ensures { result ≡ all_items is_object (items_view items.now) }
{
    for item in items {
        if !item.is_object() {
            return false;
        }
    }
    true
}

pub(crate) fn are_all_objects(members: &Map<String, Value>) -> bool
    ensures { result ≡ all_members is_object (members_view members.now.entries) }
{
    for (_, member) in members.iter() {
        if !member.is_object() {
            return false;
        }
    }
    true
}

pub fn text_at<'a>(value: &'a Value, name: &str) -> Option<&'a str>
    ensures text { option_map (λ text. text.now) result ≡ text_at name.now (view value.now) }
{
    value.get(name)?.as_str()
}

/// Whether an object has this text as a member.
pub fn has_text(value: &Value, name: &str, text: &str) -> bool
    ensures text { result ≡ is_text text.now (text_at name.now (view value.now)) }
{
    match text_at(value, name) {
        Some(found) => text == found,
        None => false,
    }
}

/// The items of a list that an object has as a member; none where it has no such list.
pub fn list_at<'a>(value: &'a Value, name: &str) -> &'a [Value]
    ensures items { list_of (items_view result.now) ≡ list_at name.now (view value.now) }
{
    match value.get(name) {
        Some(Value::Array(items)) => items,
        _ => &[],
    }
}

/// Whether a list has more than so many items.
pub fn is_longer(items: &[Value], most: usize) -> bool
    ensures longer { result ≡ nat_lt most (length (list_of (items_view items.now))) }
{
    most < items.len()
}

/// The members of an object that an object has as a member; `None` where it has no such object.
pub fn members_at<'a>(value: &'a Value, name: &str) -> Option<&'a Map<String, Value>>
    ensures members { unwrap_or (option_map (λ members. members_view members.now.entries) result) no_members ≡ members_at name.now (view value.now) }
{
    match value.get(name) {
        Some(Value::Object(members)) => Some(members),
        _ => None,
    }
}

/// What an object has as a member that is an object, and otherwise the empty object.
pub fn object_at<'a>(value: &'a Value, name: &str, empty: &'a Value) -> &'a Value
    requires { view empty.now ≡ object no_members }
    ensures object { view result.now ≡ object (members_at name.now (view value.now)) }
{
    match value.get(name) {
        Some(found) if found.is_object() => found,
        _ => empty,
    }
}
